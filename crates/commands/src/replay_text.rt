// The engine of the command `replay`.

ghost use Rattle.std.specs.Prelude.{◌≡◌, ◌||◌, ℕ, IfErr, List, false, Some, MatchResult};
ghost use Rattle.requests.specs.Causes.{HaveCauses};
ghost use Rattle.commands.specs.Answers.{Answers};
ghost use Rattle.commands.specs.Replays.{GivesNoSchedule, HasNestedGame, IsReplayed, RefusesReplay, Replays};
ghost use Rattle.commands.specs.Spelled.{IsScheduleOf};

use crate::answer::answered;
use calculus::priorities::Priorities;
use game::graph::Game;
use liftcore::error::{CoreError, ReadError, ScheduleError};
use liftcore::event::Event;
use liftcore::machine::Core;
use liftcore::schedule::read_schedule_from;
use liftcore::writer::write_replay;
use requests::arena::arena_of;
use requests::error::MuError;
use requests::request::Replay;
use requests::texts::read_both;
use std::alloc::Global;
use std::hash::BuildHasher;
use std::thread::Threads;
use text::error::ReadFault;
use text::sink::Sink;
use text::source::Source;

/// Writes what the events of a schedule come to in the game of a system and a formula: how many were done and how many skipped,
/// the measure of each vertex, the pending vertices, and whether the table is settled and all is quiet. The answer is true. The
/// game is made by the nested rule, and the schedule is read once it is made.
///
/// # Errors
/// Those of the readers, of the normal form and of the game, unchanged; S1 to S3 for the schedule's text, S4 for memory of its
/// events or of their state; U3 where a read of the formula or of the schedule failed, U4 for the memory of their texts; W1
/// where a write failed. After a refusal that is not W1 nothing was written.
pub fn replay_text<
    L: BuildHasher + Drop,
    R: Source + Drop,
    S: Source + Drop,
    T: Source + Drop,
    W: Sink,
    H: Threads + Sync,
>(
    rt: &H,
    alloc: Global,
    hasher: L,
    aut: R,
    formula: S,
    schedule: T,
    workers: u32,
    out: &mut W,
) -> Result<bool, MuError>
    ensures replays { Replays workers (R.remaining aut) (S.remaining formula) (T.remaining schedule) (W.taken out.old) (W.taken out.new) result }
    ensures cause { IfErr result (HaveCauses R.can_fail (S.can_fail || T.can_fail)) }
{
    let texts = read_both(alloc, hasher, aut, formula)?;
    let (system, formula) = (&texts.system, &texts.formula);
    let game = arena_of(rt, alloc, system, formula, Priorities::Nested, None)?;
    replay_in(alloc, &game, schedule, workers, out)
}

/// Replays as a command asks for it: with as many workers.
///
/// # Errors
/// Those of `replay_text`.
pub fn replay_asked<
    L: BuildHasher + Drop,
    R: Source + Drop,
    S: Source + Drop,
    T: Source + Drop,
    W: Sink,
    H: Threads + Sync,
>(
    rt: &H,
    alloc: Global,
    request: &Replay<'_>,
    hasher: L,
    aut: R,
    formula: S,
    schedule: T,
    out: &mut W,
) -> Result<bool, MuError>
    ensures replays { Replays request.now.workers (R.remaining aut) (S.remaining formula) (T.remaining schedule)
        (W.taken out.old) (W.taken out.new) result }
    ensures cause { IfErr result (HaveCauses R.can_fail (S.can_fail || T.can_fail)) }
{
    replay_text(
        rt,
        alloc,
        hasher,
        aut,
        formula,
        schedule,
        request.workers,
        out,
    )
}

/// Replays the schedule in a game that was made, and writes what it comes to.
fn replay_in<T: Source + Drop, W: Sink>(
    alloc: Global,
    game: &Game,
    schedule: T,
    workers: u32,
    out: &mut W,
) -> Result<bool, MuError>
    ensures answers { (first second third : List ℕ) → HasNestedGame first second game.now → T.remaining schedule ≡ Some third
        → Answers (IsReplayed workers first second third) (RefusesReplay workers first second third) (W.taken out.old) (W.taken out.new) result }
    ensures cause { IfErr result (HaveCauses false T.can_fail) }
{
    let events = read_events(alloc, schedule, workers, game.vertices())?;
    match Core::new(alloc, game, workers as usize) {
        Ok(mut core) => {
            let tally = core.follow(&events);
            answered(write_replay(&core, tally, out), true)
        }
        Err(CoreError::Memory) => Err(MuError::Schedule(ScheduleError::Memory)),
    }
}

/// The events of a schedule for so many workers and vertices.
fn read_events<T: Source + Drop>(
    alloc: Global,
    schedule: T,
    workers: u32,
    vertices: u32,
) -> Result<Vec<Event>, MuError>
    ensures answers { (text : List ℕ) → T.remaining schedule ≡ Some text
        → MatchResult result (λ events. IsScheduleOf workers vertices text events.items) (GivesNoSchedule workers vertices text) }
    ensures cause { IfErr result (HaveCauses false T.can_fail) }
{
    match read_schedule_from(alloc, schedule, workers, vertices) {
        Ok(events) => Ok(events),
        Err(ReadError::Schedule(error)) => Err(MuError::Schedule(error)),
        Err(ReadError::Read(ReadFault::Read)) => Err(MuError::Read),
        Err(ReadError::Read(ReadFault::Memory)) => Err(MuError::Memory),
    }
}
