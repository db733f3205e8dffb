// Workers where memory is refused. tests/refusals runs each test with `memory` in its name once for each request for memory, and refuses that one;
// where the setting can't be made the test ends by `expect` with the word memory. Run by itself it meets no refusal.

ghost use Rattle.std.specs.Prelude.{◌<◌};

use crate::common::*;

// Workers come to the table of one thread, or memory was refused and none of them had a turn.
fn refuses_before_turns(rt: &impl Host, shards: u32, workers: usize)
    requires { 0 < workers }
{
    let game = arena(rt, RING, OFTEN);
    let wanted = solved(rt, &game);
    let turns = Counts::new(rt, 64);
    let is_so = match lifted(rt, &game, shards, workers, &turns) {
        Ok(settled) => agree(&game, &wanted, &settled),
        Err(SolveError::Memory) => turns.all() == 0,
    };
    holds!(rt; is_so, "a refusal comes before turns");
}

#[test]
fn memory_is_refused_before_the_turns_of_one_worker(rt: HostRuntime) {
    refuses_before_turns(&rt, WORDS, 1);
    refuses_before_turns(&rt, 3, 1)
}

#[test]
fn memory_is_refused_before_the_turns_of_two(rt: HostRuntime) {
    refuses_before_turns(&rt, WORDS, 2);
    refuses_before_turns(&rt, 3, 2)
}

#[test]
fn memory_is_refused_before_the_turns_of_eight(rt: HostRuntime) {
    refuses_before_turns(&rt, WORDS, 8);
    refuses_before_turns(&rt, 3, 8)
}
