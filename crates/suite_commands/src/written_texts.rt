// What the commands `labels`, `normal`, `solve`, `verify` and `replay` write and answer, and what they tell where a read or a write fails: worked examples
// of docs/FORMATS.md. tests/commands asks the built program for more of them, and for what is refused.

use crate::common::{answers, cramped, is_cut, is_written, ready};
use calculus::priorities::Priorities;
use commands::labels_text::labels_text;
use commands::normal_text::{normal_asked, normal_text};
use commands::replay_text::{replay_asked, replay_text};
use commands::solve_text::solve_text;
use commands::verify_text::{verify_both_text, verify_text};
use requests::error::MuError;
use requests::request::{BoardKind, Normalize, Options, Replay};
use samples::holds;
use samples::host::Host;
use samples::readers::SlowReader;
use samples::ring_games::{EVEN_OF_STEP, ODD_OF_STEP, STEP};
use samples::texts::{RING, unseeded};
use samples::writers::{AMPLE, Narrow};
use std::io::Write;

const OPTIONS: Options = Options {
    priorities: Priorities::Nested,
    workers: 1,
    shards: 16,
    board: BoardKind::Auto,
};

const NORMAL: Normalize<'static> = Normalize {
    formula: "f",
    priorities: Priorities::Nested,
};

const REPLAY: Replay<'static> = Replay {
    system: "s",
    formula: "f",
    schedule: "e",
    workers: 2,
};

/// A command with its texts. A replay is in the game of `<a>true` on the ring of two states.
#[derive(Clone, Copy)]
enum CommandWithTexts<'a> {
    Labels(&'a str, &'a str),
    Normal(&'a str),
    Solve(&'a str),
    Verify(&'a str, &'a str),
    Both(&'a str, &'a str, &'a str),
    Replay(&'a str),
}

/// Which text of a command fails to be read, and behind how many bytes.
type ReadFailure = Option<(usize, usize)>;

/// A reader of the text with this number.
fn reader(text: &str, number: usize, failure: ReadFailure) -> SlowReader<'_> {
    match failure {
        Some((failing, given)) if failing == number => {
            SlowReader::failing(text.as_bytes(), 5, given)
        }
        _ => SlowReader::whole(text.as_bytes(), 5),
    }
}

fn run<W: Write>(
    rt: &impl Host,
    asked: &CommandWithTexts<'_>,
    failure: ReadFailure,
    out: &mut W,
) -> Result<bool, MuError> {
    let alloc = rt.alloc();
    match asked {
        CommandWithTexts::Labels(system, formula) => {
            let formula = Some(reader(formula, 1, failure));
            labels_text(alloc, unseeded(), reader(system, 0, failure), formula, out)
        }
        CommandWithTexts::Normal(formula) => {
            normal_asked(alloc, &NORMAL, reader(formula, 0, failure), out)
        }
        CommandWithTexts::Solve(game) => {
            solve_text(rt, alloc, reader(game, 0, failure), &OPTIONS, out)
        }
        CommandWithTexts::Verify(game, evidence) => {
            let evidence = reader(evidence, 1, failure);
            verify_text(alloc, reader(game, 0, failure), evidence, out)
        }
        CommandWithTexts::Both(game, first, second) => {
            let (first, second) = (reader(first, 1, failure), reader(second, 2, failure));
            verify_both_text(alloc, reader(game, 0, failure), first, second, out)
        }
        CommandWithTexts::Replay(schedule) => run_replay(rt, schedule, failure, out),
    }
}

fn run_replay<W: Write>(
    rt: &impl Host,
    schedule: &str,
    failure: ReadFailure,
    out: &mut W,
) -> Result<bool, MuError> {
    replay_asked(
        rt,
        rt.alloc(),
        &REPLAY,
        unseeded(),
        reader(RING, 0, failure),
        reader("<a>true", 1, failure),
        reader(schedule, 2, failure),
        out,
    )
}

/// Six transitions, three of them with one label.
const BLANKS: &str =
    "des (0,6,3)\n(0,\"a\",1)\n(0,\"b c\",1)\n(0,\"b c\",2)\n(1,\"b c\",0)\n(1,\"a\",2)\n(2,\"tau\",2)\n";

/// What is written of a replay without events.
const NO_EVENT: &str =
    "events 0 done 0 skipped 0\n0 (0)\n1 top\n2 (0)\n3 (0)\n4 (0)\n5 (0)\npending 0,1,2,3,4,5\nsettled no\nquiet no\n";

/// Commands, what each writes and answers, and what is told where one of its texts fails to be read.
static TOLD: [(CommandWithTexts<'static>, &str, &str, &[&str]); 6] = [
    (
        CommandWithTexts::Labels(BLANKS, "<a>true && [!\"b c\"]<tau>true"),
        "3 \"b c\"\n2 \"a\" taken\n1 \"tau\" taken\n",
        "yes",
        &["A8", "U3"],
    ),
    (
        CommandWithTexts::Normal("!(<a>true && mu X. [b]X)"),
        "nodes 6 priority 0 depth 1\n0 or 0 1 3\n1 box 0 2 a\n2 false 0\n3 nu 0 4\n4 dia 0 5 b\n5 var 0 3\n",
        "yes",
        &["U3"],
    ),
    (
        CommandWithTexts::Solve(STEP),
        "vertices 6\neven 4\n0 even\n1 odd\n2 even\n3 even\n4 odd\n5 even\n",
        "yes",
        &["G7"],
    ),
    (
        CommandWithTexts::Verify(STEP, ODD_OF_STEP),
        "verified odd 2 of 6\n",
        "yes",
        &["G7", "E4"],
    ),
    (
        CommandWithTexts::Both(STEP, EVEN_OF_STEP, "evidence odd\n1 - (0)\n"),
        "refused C5 at 4\n",
        "no",
        &["G7", "E4", "E4"],
    ),
    (
        CommandWithTexts::Replay("take 0 4\nread 0 1\nraise 0\nraise 0"),
        "events 4 done 3 skipped 1\n0 (0)\n1 top\n2 (0)\n3 (0)\n4 top\n5 (0)\npending 0,1,2,3,5\nsettled yes\nquiet no\n",
        "yes",
        &["A8", "U3", "U3"],
    ),
];

/// The command writes this, and answers so.
fn tells(rt: &impl Host, asked: &CommandWithTexts<'_>, text: &str, answer: &str) {
    let mut out = Narrow::new(rt.alloc(), 7, AMPLE);
    answers(rt, text, &run(rt, asked, None, &mut out), answer);
    is_written(rt, text, &out);
}

#[test]
fn commands_write_what_was_worked_out(rt: HostRuntime) {
    for (asked, text, answer, _) in &TOLD {
        tells(&rt, asked, text, answer);
    }
}

/// A normal form by the dependent rule, and a replay of no event, that are asked for without a request.
#[test]
fn texts_are_written_without_a_request(rt: HostRuntime) {
    let (rule, mut form) = (Priorities::Dependent, Vec::new(rt.alloc()));
    let formula = b"nu X. (<a>X && mu Y. <b>Y)".as_slice();
    answers(
        &rt,
        "normal",
        &normal_text(rt.alloc(), formula, rule, &mut form),
        "yes",
    );
    holds!(&rt; form.starts_with(b"nodes 7 priority 1 depth 2\n"), "normal");
    let (system, formula, schedule) = (RING.as_bytes(), b"<a>true".as_slice(), b"".as_slice());
    let (hasher, mut replay) = (unseeded(), Vec::new(rt.alloc()));
    let answer = replay_text(
        &rt,
        rt.alloc(),
        hasher,
        system,
        formula,
        schedule,
        2,
        &mut replay,
    );
    answers(&rt, "replay", &answer, "yes");
    holds!(&rt; replay.as_slice() == NO_EVENT.as_bytes(), "replay");
}

/// A text of the command fails to be read behind so many bytes: this is told, and nothing is written.
fn is_unread(rt: &impl Host, asked: &CommandWithTexts<'_>, failure: (usize, usize), code: &str) {
    let mut out = Vec::new(rt.alloc());
    answers(rt, code, &run(rt, asked, Some(failure), &mut out), code);
    holds!(rt; out.is_empty(), code);
}

/// Each text of the command fails to be read in turn.
fn are_unread(rt: &impl Host, asked: &CommandWithTexts<'_>, codes: &[&str]) {
    for (number, code) in codes.iter().enumerate() {
        for given in 0..=7 {
            is_unread(rt, asked, (number, given), code);
        }
    }
}

#[test]
fn failed_reads_of_commands_are_told(rt: HostRuntime) {
    for (asked, _, _, codes) in &TOLD {
        are_unread(&rt, asked, codes);
    }
}

/// Into so little room a beginning of the text is written.
fn leaves_a_beginning(rt: &impl Host, asked: &CommandWithTexts<'_>, text: &str, room: usize) {
    let mut out = cramped(rt.alloc(), room);
    let answer = run(rt, asked, None, &mut out);
    is_cut(rt, text, room, &answer, out.taken.as_slice());
}

/// A writer without room for the whole text is given a beginning, and W1 is told.
#[test]
fn failed_writes_of_commands_leave_a_beginning(rt: HostRuntime) {
    for (asked, text, _, _) in &TOLD {
        for room in 0..text.len() {
            leaves_a_beginning(&rt, asked, text, room);
        }
    }
}

/// The whole text is written, or there is no answer and nothing is written.
fn writes_all_or_nothing(rt: &impl Host, asked: &CommandWithTexts<'_>, text: &str) {
    let mut out = ready(rt);
    let is_done = run(rt, asked, None, &mut out).is_ok();
    is_written(rt, if is_done { text } else { "" }, &out);
}

/// Each growth may be refused: nothing is written then. tests/refusals refuses each in turn.
#[test]
fn commands_want_memory_before_they_write(rt: HostRuntime) {
    for (asked, text, _, _) in &TOLD {
        writes_all_or_nothing(&rt, asked, text);
    }
}
