// Schedules of workers and their replays: a worked example of docs/FORMATS.md, on the game of `<a>true`. tests/commands has more replays, and what is wrong
// with texts.

use crate::common::*;
use liftcore::error::{ReadError, ScheduleError, ScheduleFault};
use liftcore::event::Event;
use liftcore::machine::{Core, run};
use liftcore::schedule::{read_schedule, read_schedule_from};
use liftcore::writer::write_replay;
use samples::readers::{Halting, SlowReader};
use std::io::Read;
use text::ReadFault;

// A core of so many workers, none of which has done anything.
pub(crate) fn new_core<'a>(rt: &impl Host, game: &'a Game, workers: usize) -> Core<'a> {
    Core::new(rt.alloc(), game, workers).expect(rt, "memory")
}

// A worker takes vertex 4, reads its successor and raises it, and can't raise it once more.
const SCHEDULE: &str = "take 0 4\nread 0 1\nraise 0\nraise 0";

static EVENTS: [Event; 4] = [
    Event::Take {
        worker: 0,
        vertex: 4,
    },
    Event::Read {
        worker: 0,
        vertex: 1,
    },
    Event::Raise { worker: 0 },
    Event::Raise { worker: 0 },
];

const REPLAY: &[u8] =
    b"events 4 done 3 skipped 1\n0 (0)\n1 top\n2 (0)\n3 (0)\n4 top\n5 (0)\npending 0,1,2,3,5\nsettled yes\nquiet no\n";

// This is written of a replay.
fn is_replayed(rt: &impl Host, core: &mut Core<'_>, events: &[Event]) {
    let counts = core.follow(events);
    let mut text = Vec::new(rt.alloc());
    holds!(rt; write_replay(core, counts, &mut text).is_ok());
    holds!(rt; text.as_slice() == REPLAY);
}

#[test]
fn one_step_is_replayed(rt: HostRuntime) {
    let game = game_of(&rt, STEP.as_bytes());
    let read = read_schedule(rt.alloc(), SCHEDULE.as_bytes(), 2, game.vertices());
    let events = read.expect(&rt, "a schedule");
    holds!(&rt; events.as_slice() == EVENTS.as_slice());
    is_replayed(&rt, &mut new_core(&rt, &game, 2), events.as_slice());
}

// What a reader gives is a schedule with those events.
fn is_read<R: Read + Drop>(rt: &impl Host, reader: R) {
    let read = read_schedule_from(rt.alloc(), reader, 2, 6);
    let is_so = match &read {
        Ok(events) => events.as_slice() == EVENTS.as_slice(),
        Err(_) => false,
    };
    holds!(rt; is_so, SCHEDULE);
}

// In any pieces, and where reads are interrupted.
#[test]
fn schedules_are_read_in_pieces(rt: HostRuntime) {
    for step in [1, 7, 8192] {
        is_read(&rt, SlowReader::whole(SCHEDULE.as_bytes(), step));
    }
    is_read(&rt, Halting::whole(SCHEDULE.as_bytes()));
}

// A schedule whose reader fails behind it is refused so.
fn is_unread(rt: &impl Host, schedule: &str, wanted: ReadError) {
    let reader = SlowReader::failing(schedule.as_bytes(), 3, schedule.len());
    let read = read_schedule_from(rt.alloc(), reader, 2, 8);
    let is_so = match &read {
        Ok(_) => false,
        Err(error) => *error == wanted,
    };
    holds!(rt; is_so, schedule);
}

// A failed read is told where the text has no fault before it.
#[test]
fn failed_reads_of_schedules_are_told(rt: HostRuntime) {
    let fault = ScheduleError::Fault {
        fault: ScheduleFault::BadLine,
        line: 2,
    };
    is_unread(&rt, "raise 0\ntake", ReadError::Read(ReadFault::Read));
    is_unread(&rt, "raise 0\ntake\n", ReadError::Schedule(fault));
}

#[test]
fn a_run_is_its_events(rt: HostRuntime) {
    let game = game_of(&rt, STEP.as_bytes());
    let run = run(rt.alloc(), &game, 1, &EVENTS);
    let is_so = match &run {
        Ok(core) => core.is_settled() && !core.is_quiet() && !core.is_pending(4),
        Err(_) => false,
    };
    holds!(&rt; is_so, "a vertex is lifted");
}
