// Command lines, and what is asked for by them. What the program does by others, and which lines it refuses, stands in tests/answers and tests/commands;
// command_line/specs/Example.antt has what is read of more.

use crate::common::same;
use crate::help::HELP;
use calculus::priorities::Priorities;
use command_line::information::{explanation, help_text, version_text};
use command_line::line::command;
use command_line::names::is_drawing;
use command_line::request::{Command, Outputs};
use requests::error::MuError;
use requests::request::{BoardKind, Check, ReportForm};
use samples::holds;
use samples::host::Host;

/// The words of a command line.
fn words(rt: &impl Host, line: &str) -> Vec<String> {
    let mut words = Vec::new(rt.alloc());
    for word in line.split(' ') {
        let word = String::from_str(rt.alloc(), word).expect(rt, "memory");
        words.push(word).expect(rt, "memory");
    }
    words
}

/// A line in which nothing is left to its default.
const WHOLE: &str =
    "mucheck check --game g s --evidence e f --witness w --states no --limit 1 --strict --stats --workers 2 --shards 3 --board packed --priorities dependent";

/// Whether what is asked for is what the words of that line say.
fn is_whole(check: &Check<'_>, outputs: &Outputs<'_>) -> bool {
    let options = &check.options;
    let is_by_team = (options.workers, options.shards) == (2, 3)
        && matches!(options.board, BoardKind::Packed)
        && matches!(options.priorities, Priorities::Dependent);
    let report = matches!(
        outputs.report,
        ReportForm::States {
            mark: false,
            most: Some(1)
        }
    );
    let made = outputs.game == Some("g")
        && outputs.evidence == Some("e")
        && outputs.witness == Some("w");
    let files = check.system == "s" && check.formula == "f" && !check.plain;
    files && made && report && check.strict && outputs.stats && is_by_team
}

#[test]
fn words_are_what_is_asked_for(rt: HostRuntime) {
    let words = words(&rt, WHOLE);
    let asked = command(rt.alloc(), words.as_slice()).expect(&rt, "a command");
    let is_so = match &asked {
        Command::Check(check, outputs) => is_whole(check, outputs),
        _ => false,
    };
    holds!(&rt; is_so, WHOLE);
}

#[test]
fn drawings_go_by_their_names(rt: HostRuntime) {
    holds!(&rt; is_drawing("w.DOT") && is_drawing(".gv") && !is_drawing("w.dot.aut"));
}

/// (from docs/CODES.md, with which tests/codes compares all of them)
#[test]
fn codes_are_explained(rt: HostRuntime) {
    let text = explanation(rt.alloc(), "A3").expect(&rt, "a code");
    holds!(&rt; text.starts_with("A3 at line 1: more than "), text.as_str());
    let none = explanation(rt.alloc(), "");
    holds!(&rt; matches!(&none, Err(MuError::Arguments(_))), "no code");
}

/// The help is the text that the script `./mucheck` shows as long as the program isn't built. tests/commands asks for that of commands.
#[test]
fn the_program_tells_of_itself(rt: HostRuntime) {
    let help = help_text(rt.alloc(), None).expect(&rt, "help");
    same(&rt, "help", help.as_str(), HELP);
    let version = version_text(rt.alloc()).expect(&rt, "a version");
    holds!(&rt; version.starts_with("mucheck "), version.as_str());
}
