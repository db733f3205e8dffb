// What a check tells of itself while it runs.

use calculus::closed::Closed;
use game::observer::{Observer, Silent};
use lts::system::Lts;

/// Is told what a check is doing, and what it has read. Nothing that a check promises rests on what a watcher does.
pub trait Watcher: Observer + Sync {
    /// Both texts are read, and nothing is made of them yet.
    fn has_read(&self, system: &Lts, formula: &Closed);
}

impl Watcher for Silent {
    fn has_read(&self, _system: &Lts, _formula: &Closed) {}
}
