// How workers share what is to be lifted, of which no contract speaks. That they leave the least table is proved; how many turns they
// take, and who takes them, is counted here by a gate. The opening table is what they begin with, so that all lifting is theirs.

ghost use Rattle.std.specs.Prelude.{◌<◌};

use crate::common::*;

/// How many vertices a ring of the climb has, and the way behind the rings.
const EACH: u32 = 20;

/// Where the way begins.
const WAY: u32 = 1980;

const END: u32 = 1999;

// One more vertex of a climb of 2,000. It has rings, and behind them a way, of which the first two vertices have priority 3, to a loop
// of priority 4. The head of each ring has priority 1. Even may leave a ring there, and then goes the way; Odd may go over to the next
// ring half way round. Even wins all, yet she asks for less by staying until what the rings ask for has climbed past two threes, for
// each of them through as many ones as there are.
fn push_climbing(builder: &mut GameBuilder, v: u32) -> Result<(), AllocError> {
    if v >= END {
        return push_row(builder, Player::Odd, 4, &[END]);
    }
    if v >= WAY {
        let priority = if v < WAY + 2 { 3 } else { 2 };
        return push_row(builder, Player::Odd, priority, &[v + 1]);
    }
    let place = v % EACH;
    let next = v - place + (place + 1) % EACH;
    if place == 0 {
        push_row(builder, Player::Even, 1, &[next, WAY])
    } else if place == 10 && v < WAY - EACH {
        push_row(builder, Player::Odd, 0, &[next, v + EACH])
    } else {
        push_row(builder, Player::Odd, 0, &[next])
    }
}

// How many turns so many workers over words take.
fn turns_of(rt: &impl Host, game: &Arc<Game>, workers: usize) -> u64
    requires { 0 < workers }
{
    let turns = Counts::new(rt, 64);
    holds!(rt; lifted(rt, game, WORDS, workers, &turns).is_ok());
    turns.all()
}

// So many workers take at most twice the turns of one.
fn take_at_most_twice(rt: &impl Host, game: &Arc<Game>, workers: usize, one: u64)
    requires { 0 < workers }
{
    let all = turns_of(rt, game, workers);
    holds_of(rt, all / 2 <= one, "the turns of many are", all);
}

#[test]
fn a_climb_takes_many_workers_at_most_twice_the_lifts_of_one(rt: HostRuntime) {
    let game = grown(&rt, END + 1, &push_climbing);
    let one = turns_of(&rt, &game, 1);
    holds_of(&rt, one > 100_000, "the turns of one are", one);
    take_at_most_twice(&rt, &game, 2, one);
    take_at_most_twice(&rt, &game, 8, one);
    take_at_most_twice(&rt, &game, 64, one);
}

/// The root of a tree of 100,000 vertices.
const ROOT: u32 = 99_999;

// The root stands last, where Odd wins. Each other vertex leads to one that is nearer to it.
fn push_branch(builder: &mut GameBuilder, v: u32) -> Result<(), AllocError> {
    if v >= ROOT {
        push_row(builder, Player::Even, 1, &[ROOT])
    } else {
        push_row(builder, Player::Even, 0, &[ROOT - (ROOT - v - 1) / 2])
    }
}

// So many workers share the turns at it: each takes at least a tenth of them.
fn share(rt: &impl Host, game: &Arc<Game>, workers: u32)
    requires { 0 < workers }
{
    let turns = Counts::new(rt, 64);
    holds!(rt; lifted(rt, game, WORDS, workers as usize, &turns).is_ok());
    let all = turns.all();
    holds_of(rt, all >= 100_000 && all < 220_000, "all turns are", all);
    for worker in 0..workers {
        let own = turns.of(worker);
        holds_of(rt, own >= all / 10, "the turns of a worker are", own);
    }
}

// Each worker has a turn at each of its own vertices. Each vertex rises once, so there are about two turns for each: where a block is given again
// while somebody goes through it, two may come to a vertex at the same time. So a quarter of the vertices is more than a tenth of all turns.
#[test]
fn what_rises_once_is_shared(rt: HostRuntime) {
    let game = grown(&rt, ROOT + 1, &push_branch);
    share(&rt, &game, 2);
    share(&rt, &game, 4);
}

// Whether workers come to the table of one thread, on a game that is thrown, and so is how many they are, and over which board they lift.
fn is_same_table(rt: &impl Host, dice: &mut Dice) -> bool {
    let game = shared_of(rt, rolled_game(rt, dice, 24));
    let workers = dice.roll(16) as usize + 1;
    let shards = dice.roll(20) + 1;
    let shards = if dice.roll(2) == 0 { WORDS } else { shards };
    let many = lifted(rt, &game, shards, workers, &NoGate).expect(rt, "memory");
    is_least(rt, &game, &many)
}

#[test]
fn workers_thrown_at_random_find_the_least_table(rt: HostRuntime) {
    let mut dice = Dice::new(7);
    for run in 0..1_000u64 {
        holds_of(&rt, is_same_table(&rt, &mut dice), "run", run);
    }
}
