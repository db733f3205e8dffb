// The command line.

ghost use Rattle.std.specs.Prelude.{◌≡◌, ◌≤◌, ⊤, IfErr, IfOk, IfSome, map, option_map};
ghost use Rattle.std.specs.List.{list_all};
ghost use Rattle.std.specs.String.{string_bytes};
ghost use Rattle.clap.specs.Words.{first_of, found_of, kind_of, rows_of, subcommand_rows_of};
ghost use Rattle.command_line.specs.CommandLine.{AreFiles, AreMatchesOf, AreOptions, AreOutputs, AsksReplay, HasArguments, IsAskedFor, IsCommand, IsFile};
ghost use Rattle.command_line.specs.CommandLine.{IsFileIfAny, IsNumber, IsRead, IsReportForm, IsSolve, IsTableRequest, IsVerify, IsWhy, IsWithin};
ghost use Rattle.command_line.specs.CommandLine.{board_in, form_by, has_value, is_named, number_in, priorities_in, states_by};
ghost use Rattle.command_line.specs.Files.{ReadsItOnce};
ghost use Rattle.command_line.specs.Names.{KeepsFiles};
ghost use Rattle.command_line.specs.Refused.{Finds, IsLineError};
ghost use Rattle.command_line.specs.Refusals.{IsRefusable, IsUntaken};

use crate::inputs::reads_once;
use crate::names::keep_files;
use crate::request::{Command, Labels, Outputs};
use crate::version::VERSION;
use calculus::priorities::Priorities;
use clap::error::ErrorKind;
use clap::{ArgMatches, Error as ClapError};
use command_table::parser::{
    BOARD, CODE, COMMAND, EVIDENCE, EVIDENCE_FILES, FORMULA, GAME, GAME_FILE, LIMIT, OTHER, PLAIN,
    PRIORITIES, QUIET, SCHEDULE, SHARDS, STATES, STATS, STRICT, SUMMARY, SYSTEM, WITNESS_FILE,
    WORKERS, parser,
};
use requests::error::{ArgumentError, MuError};
use requests::request::{
    BoardKind, Check, Normalize, Options, Replay, ReportForm, Solve, Table, Verify, Why,
};
use std::alloc::Global;

/// The command that the words ask for; the first word is the program's own name.
///
/// # Errors
/// U1 where the words are no command, or one that would destroy a file or read standard input twice, with what is wrong with them, or the
/// help or version that was asked for, and only there; U4.
pub fn command<'a>(alloc: Global, words: &'a [String]) -> Result<Command<'a>, MuError>
    ensures asked { IfOk result (IsAskedFor (map (λ word. string_bytes word) words.now)) }
    ensures kept { IfOk result KeepsFiles }
    ensures once { IfOk result ReadsItOnce }
    ensures refused { IfErr result (IsLineError (IsRefusable (map (λ word. string_bytes word) words.now))) }
{
    let matches = matches_of(alloc, words)?;
    let command = request_of(alloc, &matches)?;
    keep_files(alloc, &command)?;
    if reads_once(&command) {
        Ok(command)
    } else {
        Err(MuError::Arguments(ArgumentError::TwoInputs))
    }
}

fn matches_of<'a>(alloc: Global, words: &'a [String]) -> Result<ArgMatches<'a>, MuError>
    ensures found { IfOk result (AreMatchesOf (map (λ word. string_bytes word) words.now)) }
    ensures refused { IfErr result (IsLineError (IsUntaken (map (λ word. string_bytes word) words.now))) }
{
    let Ok(parser) = parser(alloc, VERSION) else {
        return Err(MuError::Memory);
    };
    match parser.try_get_matches_from(words) {
        Ok(matches) => Ok(matches),
        Err(error) => Err(refusal(alloc, &error)),
    }
}

/// The refusal for what `clap` answers in place of matches; out of memory is the engine's.
pub(crate) fn refusal(alloc: Global, error: &ClapError) -> MuError
    ensures line { IsLineError ⊤ result }
    ensures memory { kind_of error.now ≡ ErrorKind.OutOfMemory → result ≡ MuError.Memory }
{
    match error.kind() {
        ErrorKind::OutOfMemory => MuError::Memory,
        _ => match error.to_string(alloc) {
            Ok(text) => MuError::Arguments(ArgumentError::Refused(text)),
            Err(_) => MuError::Memory,
        },
    }
}

/// The command that the matches ask for.
fn request_of<'a>(alloc: Global, matches: &ArgMatches<'a>) -> Result<Command<'a>, MuError>
    ensures { Finds (IsRead (subcommand_rows_of matches.now)) result }
{
    match matches.subcommand() {
        Some((name, found)) => named_request(alloc, name, found),
        None => Err(MuError::Arguments(ArgumentError::NoCommand)),
    }
}

/// The command of this name.
fn named_request<'a>(
    alloc: Global,
    name: &str,
    found: &ArgMatches<'a>,
) -> Result<Command<'a>, MuError>
    ensures { Finds (IsCommand name.now (rows_of (found_of found.now))) result }
{
    Ok(match name {
        "check" => {
            let (check, outputs) = check_of(found)?;
            Command::Check(check, outputs)
        }
        "why" => Command::Why(why_of(found)?),
        "table" => Command::Table(table_of(alloc, found)?),
        "labels" => Command::Labels(Labels {
            system: file_name(found, SYSTEM)?,
            formula: optional_name(found, FORMULA)?,
        }),
        "normal" => Command::Normal(Normalize {
            formula: file_name(found, FORMULA)?,
            priorities: rule(found),
        }),
        "solve" => Command::Solve(solve_of(found)?),
        "verify" => Command::Verify(verify_of(found)?),
        "replay" => Command::Replay(replay_of(found)?),
        "explain" => Command::Explain(file_name(found, CODE)?),
        "help" => Command::Help(optional_name(found, COMMAND)?),
        "version" => Command::Version,
        _ => return Err(MuError::Arguments(ArgumentError::NoCommand)),
    })
}

/// A check, and where its texts go.
fn check_of<'a>(matches: &ArgMatches<'a>) -> Result<(Check<'a>, Outputs<'a>), MuError>
    ensures { Finds (λ asked. HasArguments (rows_of (found_of matches.now)) (Command.Check asked.0 asked.1)) result }
{
    let system = file_name(matches, SYSTEM)?;
    let formula = file_name(matches, FORMULA)?;
    let check = Check {
        system,
        formula,
        options: options(matches)?,
        plain: has_value(matches, PLAIN, "true"),
        strict: has_value(matches, STRICT, "true"),
    };
    let outputs = outputs(matches)?;
    if check.plain && !outputs.is_report_alone() {
        return Err(MuError::Arguments(ArgumentError::PlainOutput));
    }
    Ok((check, outputs))
}

/// Where a check's texts go.
fn outputs<'a>(matches: &ArgMatches<'a>) -> Result<Outputs<'a>, MuError>
    ensures { Finds (AreOutputs (rows_of (found_of matches.now))) result }
{
    Ok(Outputs {
        game: optional_name(matches, GAME_FILE)?,
        evidence: optional_name(matches, EVIDENCE_FILES)?,
        witness: optional_name(matches, WITNESS_FILE)?,
        report: report_form(matches)?,
        stats: has_value(matches, STATS, "true"),
    })
}

/// The form of the report that is asked for.
fn report_form(matches: &ArgMatches<'_>) -> Result<ReportForm, MuError>
    ensures { Finds (IsReportForm (rows_of (found_of matches.now))) result }
{
    let quiet = has_value(matches, QUIET, "true");
    let summary = has_value(matches, SUMMARY, "true");
    let most = optional_number(matches, LIMIT, 1, u32::MAX)?;
    match form_by(quiet, summary, value(matches, STATES), most) {
        Some(form) => Ok(form),
        None => Err(MuError::Arguments(ArgumentError::ReportForms)),
    }
}

/// The form of the report for which just these options stand, if there is one.
fn form_by(
    quiet: bool,
    summary: bool,
    states: Option<&str>,
    most: Option<u32>,
) -> Option<ReportForm>
    ensures { result ≡ form_by quiet summary (option_map (λ word. word.now) states.entry) most }
{
    match (quiet, summary, states, most) {
        (false, false, None, None) => Some(ReportForm::Whole),
        (false, true, None, None) => Some(ReportForm::Summary),
        (false, false, Some(word), most) => states_by(word, most),
        (true, false, None, None) => Some(ReportForm::Nothing),
        _ => None,
    }
}

/// The numbers of the states with the answer of this name, which is the table's.
fn states_by(word: &str, most: Option<u32>) -> Option<ReportForm>
    ensures { result ≡ states_by word.now most }
{
    if word == "yes" {
        Some(ReportForm::States { mark: true, most })
    } else if word == "no" {
        Some(ReportForm::States { mark: false, most })
    } else {
        None
    }
}

/// What is to be told of why an answer is so.
fn why_of<'a>(matches: &ArgMatches<'a>) -> Result<Why<'a>, MuError>
    ensures { Finds (IsWhy (rows_of (found_of matches.now))) result }
{
    Ok(Why {
        system: file_name(matches, SYSTEM)?,
        formula: file_name(matches, FORMULA)?,
        options: options(matches)?,
        limit: number(matches, LIMIT, 0, u32::MAX, 200)?,
        strict: has_value(matches, STRICT, "true"),
    })
}

/// The table that the matches of its command ask for.
fn table_of<'a>(alloc: Global, matches: &ArgMatches<'a>) -> Result<Table<'a>, MuError>
    ensures { Finds (IsTableRequest (rows_of (found_of matches.now))) result }
{
    Ok(Table {
        system: file_name(matches, SYSTEM)?,
        options: options(matches)?,
        formulas: file_names(alloc, matches, FORMULA)?,
        plain: has_value(matches, PLAIN, "true"),
        strict: has_value(matches, STRICT, "true"),
        stats: has_value(matches, STATS, "true"),
    })
}

/// The game that the matches of its command ask to be solved.
fn solve_of<'a>(matches: &ArgMatches<'a>) -> Result<Solve<'a>, MuError>
    ensures { Finds (IsSolve (rows_of (found_of matches.now))) result }
{
    Ok(Solve {
        game: file_name(matches, GAME)?,
        options: options(matches)?,
        evidence: optional_name(matches, EVIDENCE_FILES)?,
        stats: has_value(matches, STATS, "true"),
    })
}

/// The evidence that the matches of its command ask to be checked.
fn verify_of<'a>(matches: &ArgMatches<'a>) -> Result<Verify<'a>, MuError>
    ensures { Finds (IsVerify (rows_of (found_of matches.now))) result }
{
    Ok(Verify {
        game: file_name(matches, GAME)?,
        evidence: file_name(matches, EVIDENCE)?,
        other: optional_name(matches, OTHER)?,
    })
}

/// The replay that the matches of its command ask for.
fn replay_of<'a>(matches: &ArgMatches<'a>) -> Result<Replay<'a>, MuError>
    ensures { Finds (AsksReplay (rows_of (found_of matches.now))) result }
{
    Ok(Replay {
        system: file_name(matches, SYSTEM)?,
        formula: file_name(matches, FORMULA)?,
        schedule: file_name(matches, SCHEDULE)?,
        workers: number(matches, WORKERS, 1, 64, 2)?,
    })
}

/// The options of a command that makes a game or solves one.
fn options(matches: &ArgMatches<'_>) -> Result<Options, MuError>
    ensures { Finds (AreOptions (rows_of (found_of matches.now))) result }
{
    Ok(Options {
        priorities: rule(matches),
        workers: number(matches, WORKERS, 1, 64, 1)?,
        shards: number(matches, SHARDS, 1, 256, 16)?,
        board: board(matches),
    })
}

/// The rule of priorities; where the command has no such option, the nested one.
fn rule(matches: &ArgMatches<'_>) -> Priorities
    ensures { result ≡ priorities_in (rows_of (found_of matches.now)) }
{
    if has_value(matches, PRIORITIES, "dependent") {
        Priorities::Dependent
    } else {
        Priorities::Nested
    }
}

fn board(matches: &ArgMatches<'_>) -> BoardKind
    ensures { result ≡ board_in (rows_of (found_of matches.now)) }
{
    if has_value(matches, BOARD, "locked") {
        BoardKind::Locked
    } else if has_value(matches, BOARD, "packed") {
        BoardKind::Packed
    } else {
        BoardKind::Auto
    }
}

/// Whether an argument has this value. An option without a value has the value `true` where it stands.
fn has_value(matches: &ArgMatches<'_>, id: &str, word: &str) -> bool
    ensures { result ≡ has_value (rows_of (found_of matches.now)) id.now word.now }
{
    match value(matches, id) {
        Some(found) => found == word,
        None => false,
    }
}

/// The first value of an argument, if it stands.
fn value<'a>(matches: &ArgMatches<'a>, id: &str) -> Option<&'a str>
    ensures { first_of id.now (rows_of (found_of matches.now)) ≡ option_map (λ text. text.now) result }
{
    matches.get_str(id)
}

/// The file that an argument names.
fn file_name<'a>(matches: &ArgMatches<'a>, id: &str) -> Result<&'a str, MuError>
    ensures { Finds (IsFile (rows_of (found_of matches.now)) id.now) result }
{
    match optional_name(matches, id)? {
        Some(name) => Ok(name),
        None => Err(MuError::Arguments(ArgumentError::EmptyName)),
    }
}

/// The files that an argument names.
fn file_names<'a>(
    alloc: Global,
    matches: &ArgMatches<'a>,
    id: &str,
) -> Result<Vec<&'a str>, MuError>
    ensures { Finds (λ names. AreFiles (rows_of (found_of matches.now)) id.now names.items) result }
{
    match matches.get_strs(id) {
        None => Err(MuError::Arguments(ArgumentError::EmptyName)),
        Some(names) => {
            if !are_named(names) {
                return Err(MuError::Arguments(ArgumentError::EmptyName));
            }
            match names.iter().copied().collect(alloc) {
                Ok(copy) => Ok(copy),
                Err(_) => Err(MuError::Memory),
            }
        }
    }
}

/// Whether none of these is empty.
fn are_named(names: &[&str]) -> bool
    ensures { result ≡ list_all (λ name. is_named name.now) names.now }
{
    names.iter().all(|name| !name.is_empty())
}

/// The file that an argument names, if it stands.
fn optional_name<'a>(matches: &ArgMatches<'a>, id: &str) -> Result<Option<&'a str>, MuError>
    ensures { Finds (IsFileIfAny (rows_of (found_of matches.now)) id.now) result }
{
    match value(matches, id) {
        None => Ok(None),
        Some("") => Err(MuError::Arguments(ArgumentError::EmptyName)),
        Some(name) => Ok(Some(name)),
    }
}

/// The number between these that an option gives, or else the default.
fn number(
    matches: &ArgMatches<'_>,
    id: &str,
    least: u32,
    most: u32,
    default: u32,
) -> Result<u32, MuError>
    requires some { least ≤ default }
    requires few { default ≤ most }
    ensures read { Finds (IsNumber (rows_of (found_of matches.now)) id.now least most default) result }
    ensures within { IfOk result (λ n. (least ≤ n) × (n ≤ most)) }
{
    match optional_number(matches, id, least, most)? {
        Some(n) => Ok(n),
        None => Ok(default),
    }
}

/// The number between these that an option gives, if it stands.
fn optional_number(
    matches: &ArgMatches<'_>,
    id: &str,
    least: u32,
    most: u32,
) -> Result<Option<u32>, MuError>
    ensures value { IfOk result (λ found. found ≡ number_in (rows_of (found_of matches.now)) id.now) }
    ensures within { IfOk result (λ found. IfSome found (λ n. (least ≤ n) × (n ≤ most))) }
    ensures read { Finds (λ _. IsWithin (rows_of (found_of matches.now)) id.now least most) result }
{
    match matches.try_get_one::<u32>(id) {
        Ok(None) => Ok(None),
        Ok(Some(n)) => {
            if least <= n && n <= most {
                Ok(Some(n))
            } else {
                Err(MuError::Arguments(ArgumentError::OverLimit))
            }
        }
        Err(_) => Err(MuError::Arguments(ArgumentError::OverLimit)),
    }
}
