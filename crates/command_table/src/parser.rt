// The command lines that are read, as `clap` is told of them.

ghost use Rattle.std.specs.Prelude.{IfOk, IsOkAnd, Some, codes};
ghost use Rattle.clap.specs.Words.{AddsArg, AddsSubcommand, app_of, new_app};
ghost use Rattle.command_table.specs.Table.{IsCommandTable, check_rules, choice_rule, explain_rules, file_rule, flag_rule, help_rules, labels_rules};
ghost use Rattle.command_table.specs.Table.{lifting_rules, normal_rules, replay_rules, solve_rules, table_rules, value_rule, verify_rules, why_rules};
ghost use Rattle.command_table.specs.Parsers.{AddsRules, HasRule, ReadsBy, command_app, within};

use clap::builder::ValueParser;
use clap::{Arg, ArgAction, Command as Parser};
use std::alloc::{AllocError, Global};

pub const SYSTEM: &str = "SYSTEM";

pub const FORMULA: &str = "FORMULA";

pub const GAME: &str = "GAME";

pub const EVIDENCE: &str = "EVIDENCE";

pub const OTHER: &str = "OTHER";

pub const SCHEDULE: &str = "SCHEDULE";

pub const CODE: &str = "CODE";

pub const COMMAND: &str = "COMMAND";

pub const PLAIN: &str = "plain";

pub const STRICT: &str = "strict";

pub const STATS: &str = "stats";

pub const PRIORITIES: &str = "priorities";

pub const WORKERS: &str = "workers";

pub const SHARDS: &str = "shards";

pub const BOARD: &str = "board";

pub const GAME_FILE: &str = "game";

pub const EVIDENCE_FILES: &str = "evidence";

pub const WITNESS_FILE: &str = "witness";

pub const QUIET: &str = "quiet";

pub const SUMMARY: &str = "summary";

pub const STATES: &str = "states";

pub const LIMIT: &str = "limit";

/// The greatest number that an option takes.
const MOST: i64 = 4_294_967_295;

static BOARDS: [&str; 3] = ["auto", "locked", "packed"];

static RULES: [&str; 2] = ["nested", "dependent"];

static ANSWERS: [&str; 2] = ["yes", "no"];

const ABOUT: &str =
    "Checks formulas of the modal mu-calculus at the states of labelled transition systems";

const AFTER: &str =
    "mucheck help COMMAND says more of a command; for a pager, mucheck help | less. One of the\n\
files that it reads may be -, which is standard input.\n\n\
A refusal begins with a line on standard error, mucheck: CODE, with its place. The command\n\
mucheck explain CODE says what it means and how to fix it. The most frequent:\n\
\x20 A1      mostly both files in the wrong order, or a byte order mark\n\
\x20 A2      mostly a label without quotes\n\
\x20 F1, F2  in a modality mostly a label with parameters, which wants quotes: <\"send(1)\">true\n\
\x20 F8      each sign nests, in a row too: put parentheses around halves of a long row\n\
\x20 B1      the game is too large: check --plain has no such limit";

const CHECK_ABOUT: &str = "Reports for each state of a system whether it satisfies a formula";

const CHECK_AFTER: &str =
    "The report goes to the standard output. The status is 0 where the initial state satisfies\n\
the formula, 1 where it does not, 2 where an argument or a text is refused, and 3 where\n\
memory, a file, a read or a write failed.\n\n\
Example:\n  mucheck check examples/first/system.aut examples/first/formula.mcf --summary";

const WHY_ABOUT: &str = "Tells why a system satisfies a formula, or why it does not";

const WHY_AFTER: &str =
    "The answer for the initial state goes to the standard output, and then the play that shows it,\n\
from the initial state on: for a no a counterexample. Where the loser has a choice, each way is\n\
indented. The status is that of check.\n\n\
Example:\n  mucheck why examples/philosophers-deadlock/system.aut examples/philosophers-deadlock/no-deadlock.mcf";

const TABLE_ABOUT: &str = "Reports for each of many formulas whether a system satisfies it";

const TABLE_AFTER: &str =
    "The system is read once. For each formula a line goes to the standard output as soon as it is\n\
known: the initial state's answer, how many states of how many satisfy it, and its file; or\n\
the refusal, and its file. Where the first line of a file is\n\n\
\x20 % expect yes\n\n\
or % expect no, its line ends in `as expected` or UNEXPECTED. The status is 0 where each answer\n\
is as expected (yes where nothing is said), else 1, or 2 or 3 as of check where a formula was\n\
refused: the greatest of them.\n\n\
Example:\n  mucheck table examples/first/system.aut examples/first/formula.mcf";

const LABELS_ABOUT: &str = "Lists the labels of a system, the most frequent first";

const LABELS_AFTER: &str =
    "For each label a line goes to the standard output: how many transitions have it, and the label\n\
in quotes, as a formula quotes it. With a formula, behind each label that it takes stands taken:\n\
an action formula in one of its modalities holds of it. The status is 0, or 2 where an argument\n\
or a text is refused, and 3 where memory, a file, a read or a write failed.\n\n\
Example:\n  mucheck labels examples/first/system.aut examples/first/formula.mcf";

const NORMAL_ABOUT: &str = "Writes the normal form of a formula, a line for each node";

const NORMAL_AFTER: &str =
    "The first line has the number of nodes, the greatest priority and the alternation depth.\n\
The status is 0, or 2 where an argument or the formula is refused, and 3 where memory, the\n\
file, a read or a write failed.\n\n\
Example:\n  mucheck normal examples/first/formula.mcf";

const SOLVE_ABOUT: &str = "Writes for each vertex of a parity game who wins it";

const SOLVE_AFTER: &str =
    "The first lines have the number of vertices, and of those that Even wins. Evidence says why:\n\
a set of vertices for each player, with moves and ranks, which mucheck verify checks. The\n\
status is 0, or 2 where an argument or the game is refused, and 3 where memory, a file, a\n\
read or a write failed.\n\n\
Example:\n  mucheck solve examples/two-states/endless-a.pg";

const VERIFY_ABOUT: &str = "Checks evidence that a player wins vertices of a parity game";

const VERIFY_AFTER: &str =
    "Where evidence is verified, its player wins every vertex that it has, whoever made it. Where\n\
two are, together they have every vertex of the game, and each has just those that its\n\
player wins. The status is 0 where they are verified, 1 where they are not, 2 where an\n\
argument or a text is refused, and 3 where memory, a file, a read or a write failed.\n\n\
Example:\n  mucheck verify examples/two-states/endless-a.pg examples/two-states/endless-a.even";

const REPLAY_ABOUT: &str = "Writes what the events of a schedule come to in a parity game";

const REPLAY_AFTER: &str =
    "The game is that of the system and the formula. Its workers do one event after another; an\n\
event that can't be done is skipped. Then the measures of the vertices are written, the\n\
pending vertices, and whether the table is settled and all is quiet. The status is 0, or 2\n\
where an argument or a text is refused, and 3 where memory, a file, a read or a write\n\
failed.\n\n\
Example:\n  mucheck replay examples/two-states/system.aut examples/two-states/a-then-a.mcf examples/two-states/late-read.schedule";

const EXPLAIN_ABOUT: &str = "Tells what a code of a refusal means, and how to fix it";

const EXPLAIN_AFTER: &str =
    "The status is 0, or 2 where there is no such code.\n\nExample:\n  mucheck explain A2";

const HELP_ABOUT: &str = "Tells what a command does, or which commands there are";

const HELP_AFTER: &str = "The help goes to the standard output, and the status is 0.\n\n\
Example:\n  mucheck help check";

const VERSION_ABOUT: &str = "Tells the version, and what proved it";

const VERSION_AFTER: &str = "The version goes to the standard output, and the status is 0.";

const SYSTEM_HELP: &str = "The system's file, in the Aldebaran format (.aut)";

const FORMULA_HELP: &str = "The formula's file, in the mu-calculus format (.mcf)";

const LABELS_FORMULA_HELP: &str = "The file of a formula, to tell which of the labels it takes";

const FORMULAS_HELP: &str = "The formulas' files, in the mu-calculus format (.mcf)";

const GAME_HELP: &str = "The game's file, in the format of PGSolver";

const EVIDENCE_HELP: &str = "The file of the evidence";

const SCHEDULE_HELP: &str = "The schedule's file, with an event on each line";

const OTHER_HELP: &str = "The file of the other player's evidence";

const CODE_HELP: &str = "A code, such as A2: the word after mucheck: in a refusal";

const COMMAND_HELP: &str = "The command whose help is told";

const PLAIN_HELP: &str = "Evaluate the formula over sets of states, without a game";

const STRICT_HELP: &str = "Refuse a formula of which a name or a quoted label is on no transition";

const STATS_HELP: &str =
    "Tell on standard error how long each stage took, how much there was, and the most memory";

const RULES_HELP: &str = "The rule by which fixpoints get their priorities: nested is the default";

const GAME_FILE_HELP: &str = "Write the parity game to this file, in the format of PGSolver";

const PATH_HELP: &str =
    "Write the evidence of both players to PATH.even and PATH.odd, which verify checks";

const WITNESS_FILE_HELP: &str =
    "Write the transitions that the answer for the initial state rests on to FILE, as a system (.aut), \
or as a picture where FILE ends in .dot or .gv (a counterexample where the answer is no)";

const QUIET_HELP: &str = "Write no report: the status alone tells";

const SUMMARY_HELP: &str = "Write the report without its lines for each state";

const STATES_HELP: &str =
    "Write only the numbers of the states that satisfy the formula, or with no of the others, a line each";

const LIMIT_HELP: &str = "At most so many of these numbers";

const LINES_HELP: &str = "At most so many lines of the play: 200 is the default, 0 tells all";

const WORKERS_HELP: &str = "How many workers lift at once: 1 is the default";

const SEATS_HELP: &str = "How many workers the schedule has: 2 is the default";

const SHARDS_HELP: &str = "How many locks the locked board has: 16 is the default";

const BOARD_HELP: &str =
    "Lift over this board: locked (shards under locks) or packed (a word for each vertex). Lifting climbs one count at a time where Odd wins: minutes on a million states. auto, the default, searches and tests, and lifts where that finds nothing";

/// All commands of the program, which tells this version.
///
/// # Errors
/// Memory was refused.
pub fn parser<'a>(alloc: Global, version: &'a str) -> Result<Parser<'a>, AllocError>
    ensures { IfOk result (λ parser. IsCommandTable (app_of parser)) }
{
    let rules = RULES.as_slice();
    let boards = BOARDS.as_slice();
    let answers = ANSWERS.as_slice();
    let parser = described(alloc, "mucheck", ABOUT, AFTER)
        .version(version)
        .subcommand_required(true)
        .disable_help_subcommand(true);
    let parser = with_command(Ok(parser), check_parser(alloc, rules, boards, answers));
    let parser = with_command(parser, why_parser(alloc, rules, boards));
    let parser = with_command(parser, table_parser(alloc, rules, boards));
    let parser = with_command(parser, labels_parser(alloc));
    let parser = with_command(parser, normal_parser(alloc, rules));
    let parser = with_command(parser, solve_parser(alloc, boards));
    let parser = with_command(parser, verify_parser(alloc));
    let parser = with_command(parser, replay_parser(alloc));
    let parser = with_command(parser, explain_parser(alloc));
    let parser = with_command(parser, help_parser(alloc));
    let telling = described(alloc, "version", VERSION_ABOUT, VERSION_AFTER);
    with_command(parser, Ok(telling))
}

/// The parser with a command more. Both are handed on as they were made, so that whoever calls this for one command after another owns nothing
/// where it would return in between: that is what makes a proof long.
fn with_command<'a>(
    parser: Result<Parser<'a>, AllocError>,
    command: Result<Parser<'a>, AllocError>,
) -> Result<Parser<'a>, AllocError>
    ensures { IfOk result (λ new. IsOkAnd parser.entry (λ old. IsOkAnd command.entry (λ sub. AddsSubcommand old sub new))) }
{
    match (parser, command) {
        (Ok(parser), Ok(command)) => parser.subcommand(command),
        _ => Err(AllocError),
    }
}

/// The parser with an argument more, for the same reason so.
fn with_arg<'a>(
    parser: Result<Parser<'a>, AllocError>,
    arg: Arg<'a>,
) -> Result<Parser<'a>, AllocError>
    ensures { IfOk result (λ new. IsOkAnd parser.entry (λ old. AddsArg old arg.entry new)) }
{
    parser?.arg(arg)
}

/// A command without arguments yet.
fn described<'a>(alloc: Global, name: &'a str, about: &'a str, after: &'a str) -> Parser<'a>
    ensures { ReadsBy (new_app name.now) result }
{
    Parser::new(alloc, name).about(about).after_help(after)
}

fn check_parser<'a>(
    alloc: Global,
    rules: &'a [&'a str],
    boards: &'a [&'a str],
    answers: &'a [&'a str],
) -> Result<Parser<'a>, AllocError>
    ensures { IfOk result (ReadsBy (command_app (codes "check") (check_rules rules.entry boards.entry answers.entry))) }
{
    let parser = Ok(described(alloc, "check", CHECK_ABOUT, CHECK_AFTER));
    let parser = with_arg(parser, file(alloc, SYSTEM, SYSTEM_HELP));
    let parser = with_arg(parser, file(alloc, FORMULA, FORMULA_HELP));
    let parser = with_arg(parser, flag(alloc, PLAIN, PLAIN_HELP));
    let parser = with_arg(parser, flag(alloc, STRICT, STRICT_HELP));
    let parser = with_arg(parser, flag(alloc, STATS, STATS_HELP));
    let parser = with_arg(parser, flag(alloc, QUIET, QUIET_HELP).short('q'));
    let parser = with_arg(parser, flag(alloc, SUMMARY, SUMMARY_HELP));
    let states = choice(alloc, STATES, "ANSWER", STATES_HELP, answers);
    let parser = with_arg(parser, states);
    let limit = number(alloc, LIMIT, "NUMBER", LIMIT_HELP, 1, MOST);
    let parser = with_arg(parser, limit);
    let parser = with_arg(parser, choice(alloc, PRIORITIES, "RULE", RULES_HELP, rules));
    let parser = with_workers(alloc, parser, boards);
    let parser = with_arg(parser, valued(alloc, GAME_FILE, "FILE", GAME_FILE_HELP));
    let parser = with_arg(parser, valued(alloc, EVIDENCE_FILES, "PATH", PATH_HELP));
    let witness = valued(alloc, WITNESS_FILE, "FILE", WITNESS_FILE_HELP);
    with_arg(parser, witness)
}

fn why_parser<'a>(
    alloc: Global,
    rules: &'a [&'a str],
    boards: &'a [&'a str],
) -> Result<Parser<'a>, AllocError>
    ensures { IfOk result (ReadsBy (command_app (codes "why") (why_rules rules.entry boards.entry))) }
{
    let parser = Ok(described(alloc, "why", WHY_ABOUT, WHY_AFTER));
    let parser = with_arg(parser, file(alloc, SYSTEM, SYSTEM_HELP));
    let parser = with_arg(parser, file(alloc, FORMULA, FORMULA_HELP));
    let parser = with_arg(parser, flag(alloc, STRICT, STRICT_HELP));
    let limit = number(alloc, LIMIT, "NUMBER", LINES_HELP, 0, MOST);
    let parser = with_arg(parser, limit);
    let parser = with_arg(parser, choice(alloc, PRIORITIES, "RULE", RULES_HELP, rules));
    with_workers(alloc, parser, boards)
}

fn table_parser<'a>(
    alloc: Global,
    rules: &'a [&'a str],
    boards: &'a [&'a str],
) -> Result<Parser<'a>, AllocError>
    ensures { IfOk result (ReadsBy (command_app (codes "table") (table_rules rules.entry boards.entry))) }
{
    let parser = Ok(described(alloc, "table", TABLE_ABOUT, TABLE_AFTER));
    let parser = with_arg(parser, file(alloc, SYSTEM, SYSTEM_HELP));
    let parser = with_arg(parser, file(alloc, FORMULA, FORMULAS_HELP).num_args(1..));
    let parser = with_arg(parser, flag(alloc, PLAIN, PLAIN_HELP));
    let parser = with_arg(parser, flag(alloc, STRICT, STRICT_HELP));
    let parser = with_arg(parser, flag(alloc, STATS, STATS_HELP));
    let parser = with_arg(parser, choice(alloc, PRIORITIES, "RULE", RULES_HELP, rules));
    with_workers(alloc, parser, boards)
}

fn labels_parser<'a>(alloc: Global) -> Result<Parser<'a>, AllocError>
    ensures { IfOk result (ReadsBy (command_app (codes "labels") labels_rules)) }
{
    let parser = Ok(described(alloc, "labels", LABELS_ABOUT, LABELS_AFTER));
    let parser = with_arg(parser, file(alloc, SYSTEM, SYSTEM_HELP));
    with_arg(parser, Arg::new(alloc, FORMULA).help(LABELS_FORMULA_HELP))
}

fn normal_parser<'a>(alloc: Global, rules: &'a [&'a str]) -> Result<Parser<'a>, AllocError>
    ensures { IfOk result (ReadsBy (command_app (codes "normal") (normal_rules rules.entry))) }
{
    let parser = Ok(described(alloc, "normal", NORMAL_ABOUT, NORMAL_AFTER));
    let parser = with_arg(parser, file(alloc, FORMULA, FORMULA_HELP));
    with_arg(parser, choice(alloc, PRIORITIES, "RULE", RULES_HELP, rules))
}

fn solve_parser<'a>(alloc: Global, boards: &'a [&'a str]) -> Result<Parser<'a>, AllocError>
    ensures { IfOk result (ReadsBy (command_app (codes "solve") (solve_rules boards.entry))) }
{
    let parser = Ok(described(alloc, "solve", SOLVE_ABOUT, SOLVE_AFTER));
    let parser = with_arg(parser, file(alloc, GAME, GAME_HELP));
    let parser = with_arg(parser, valued(alloc, EVIDENCE_FILES, "PATH", PATH_HELP));
    let parser = with_arg(parser, flag(alloc, STATS, STATS_HELP));
    with_workers(alloc, parser, boards)
}

fn verify_parser<'a>(alloc: Global) -> Result<Parser<'a>, AllocError>
    ensures { IfOk result (ReadsBy (command_app (codes "verify") verify_rules)) }
{
    let parser = Ok(described(alloc, "verify", VERIFY_ABOUT, VERIFY_AFTER));
    let parser = with_arg(parser, file(alloc, GAME, GAME_HELP));
    let parser = with_arg(parser, file(alloc, EVIDENCE, EVIDENCE_HELP));
    with_arg(parser, Arg::new(alloc, OTHER).help(OTHER_HELP))
}

fn replay_parser<'a>(alloc: Global) -> Result<Parser<'a>, AllocError>
    ensures { IfOk result (ReadsBy (command_app (codes "replay") replay_rules)) }
{
    let parser = Ok(described(alloc, "replay", REPLAY_ABOUT, REPLAY_AFTER));
    let parser = with_arg(parser, file(alloc, SYSTEM, SYSTEM_HELP));
    let parser = with_arg(parser, file(alloc, FORMULA, FORMULA_HELP));
    let parser = with_arg(parser, file(alloc, SCHEDULE, SCHEDULE_HELP));
    let workers = number(alloc, WORKERS, "1 to 64", SEATS_HELP, 1, 64);
    with_arg(parser, workers)
}

fn explain_parser<'a>(alloc: Global) -> Result<Parser<'a>, AllocError>
    ensures { IfOk result (ReadsBy (command_app (codes "explain") explain_rules)) }
{
    described(alloc, "explain", EXPLAIN_ABOUT, EXPLAIN_AFTER).arg(file(alloc, CODE, CODE_HELP))
}

fn help_parser<'a>(alloc: Global) -> Result<Parser<'a>, AllocError>
    ensures { IfOk result (ReadsBy (command_app (codes "help") help_rules)) }
{
    let command = Arg::new(alloc, COMMAND).help(COMMAND_HELP);
    described(alloc, "help", HELP_ABOUT, HELP_AFTER).arg(command)
}

/// A file, or another word that has to stand, by its place among the words.
fn file<'a>(alloc: Global, id: &'a str, help: &'a str) -> Arg<'a>
    ensures { HasRule (file_rule id.now) result }
{
    Arg::new(alloc, id).required(true).help(help)
}

/// An option without a value.
fn flag<'a>(alloc: Global, name: &'a str, help: &'a str) -> Arg<'a>
    ensures { HasRule (flag_rule name.now) result }
{
    Arg::new(alloc, name)
        .long(name)
        .action(ArgAction::SetTrue)
        .help(help)
}

/// An option that has a value.
fn valued<'a>(alloc: Global, name: &'a str, value: &'a str, help: &'a str) -> Arg<'a>
    ensures { HasRule (value_rule name.now) result }
{
    Arg::new(alloc, name)
        .long(name)
        .value_name(value)
        .action(ArgAction::Set)
        .help(help)
}

/// An option whose value is one of these names.
fn choice<'a>(
    alloc: Global,
    name: &'a str,
    value: &'a str,
    help: &'a str,
    names: &'a [&'a str],
) -> Arg<'a>
    ensures { HasRule (choice_rule name.now names.entry) result }
{
    valued(alloc, name, value, help).value_parser(ValueParser::from(names))
}

/// An option whose value is a number from this one to that one.
fn number<'a>(
    alloc: Global,
    name: &'a str,
    value: &'a str,
    help: &'a str,
    least: i64,
    most: i64,
) -> Arg<'a>
    ensures { HasRule (record (value_rule name.now) { parser = Some (within least most) }) result }
{
    let numbers = clap::value_parser!(u32).range(least..=most);
    valued(alloc, name, value, help).value_parser(numbers)
}

/// Workers, shards and board.
fn with_workers<'a>(
    alloc: Global,
    parser: Result<Parser<'a>, AllocError>,
    boards: &'a [&'a str],
) -> Result<Parser<'a>, AllocError>
    ensures { IfOk result (λ new. IsOkAnd parser.entry (λ old. AddsRules old (lifting_rules boards.entry) new)) }
{
    let workers = number(alloc, WORKERS, "1 to 64", WORKERS_HELP, 1, 64);
    let parser = with_arg(parser, workers);
    let shards = number(alloc, SHARDS, "1 to 256", SHARDS_HELP, 1, 256);
    let parser = with_arg(parser, shards);
    with_arg(parser, choice(alloc, BOARD, "KIND", BOARD_HELP, boards))
}
