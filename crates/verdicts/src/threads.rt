// How many threads work at once.

ghost use Rattle.std.specs.Prelude.{◌<◌, ◌≤◌};

use std::thread::{Threads, available_parallelism};

/// How many of so many threads have a processor each: others would wait for one in turns. All have, where that isn't known.
pub(crate) fn thread_count<R: Threads>(rt: &R, workers: usize) -> usize
    ensures most { result ≤ workers }
    ensures some { 0 < workers → 0 < result }
{
    match available_parallelism(rt) {
        Ok(processors) => workers.min(processors.get()),
        Err(_) => workers,
    }
}
