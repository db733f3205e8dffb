// The transitions of a text as they come, with labels numbered in the order in which they come.

ghost use Rattle.std.specs.Prelude.{◌≡◌, ◌+◌, ◌-◌, ◌^◌, ◌<◌, ◌≤◌, [], ◌∷◌, ◌++◌, List, length, IfOk, OnOk};
ghost use Rattle.systems.specs.System.{Arrow};
ghost use Rattle.lts.specs.Scan.{said};
ghost use Rattle.systems.specs.Label.{texts};
ghost use Rattle.lts.specs.Gathered.{HasLabel, Extends, Gathers};

use crate::error::Memory;
use crate::recent::Recent;
use crate::scan::TransitionLine;
use indexmap::IndexSet;
use std::alloc::Global;
use std::hash::BuildHasher;
use systems::system::Transition;

/// The transitions so far, and the labels, each once and found by its hash.
#[derive(Drop)]
pub(crate) struct ReadTransitions<S: BuildHasher> {
    pub labels: IndexSet<Vec<u8>, S>,
    pub transitions: Vec<Transition>,
    recent: Recent,
}

// The number of the label, which is added if it is new.
fn number_of<S: BuildHasher>(
    alloc: Global,
    labels: &mut IndexSet<Vec<u8>, S>,
    recent: &mut Recent,
    label: &[u8],
) -> Result<u32, Memory>
    requires { length labels.old.keys < 2 ^ 32 - 1 }
    ensures number { IfOk result (λ k. HasLabel (texts labels.new.keys) k label.now) }
    ensures kept { OnOk result (Extends (texts labels.old.keys) (texts labels.new.keys) label.now) }
    ensures len { OnOk result (length labels.new.keys ≤ length labels.old.keys + 1) }
{
    if let Some(number) = recent.number(labels.as_slice(), label) {
        return Ok(number);
    }
    let (place, _) = labels.insert_full(Vec::from_slice(alloc, label)?)?;
    let number = place as u32;
    recent.put(label, number);
    Ok(number)
}

impl<S: BuildHasher> ReadTransitions<S> {
    pub(crate) fn new(alloc: Global, hasher: S) -> ReadTransitions<S>
        ensures empty { Gathers (texts result.labels.keys) result.transitions.items [] }
        ensures len { length result.labels.keys ≡ 0 }
        ensures count { length result.transitions.items ≡ 0 }
    {
        ReadTransitions {
            labels: IndexSet::with_hasher(alloc, hasher),
            transitions: Vec::new(alloc),
            recent: Recent::new(),
        }
    }

    /// Adds a transition at the end.
    pub(crate) fn add(&mut self, alloc: Global, spelled: TransitionLine<'_>) -> Result<(), Memory>
        requires { length self.old.labels.keys < 2 ^ 32 - 1 }
        ensures added { OnOk result ((arrows : List Arrow) → Gathers (texts self.old.labels.keys) self.old.transitions.items arrows
            → Gathers (texts self.new.labels.keys) self.new.transitions.items (arrows ++ said spelled.entry ∷ [])) }
        ensures len { OnOk result (length self.new.labels.keys ≤ length self.old.labels.keys + 1) }
        ensures count { OnOk result (length self.new.transitions.items ≡ length self.old.transitions.items + 1) }
    {
        let label = number_of(alloc, &mut self.labels, &mut self.recent, spelled.label)?;
        self.transitions.push(Transition {
            source: spelled.source,
            label,
            target: spelled.target,
        })?;
        Ok(())
    }
}
