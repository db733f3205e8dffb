// The names of a command's files: nothing is written to a file that it reads, or that another of its texts goes to.

ghost use Rattle.std.specs.Prelude.{◌≡◌, ◌↔◌, ◌⊎◌, ◌∷◌, ◌++◌, [], IfErr, IfOk, IsTrue, codes, map, option_map};
ghost use Rattle.std.specs.List.{list_any};
ghost use Rattle.std.specs.String.{string_bytes};
ghost use Rattle.command_line.specs.Refused.{IsLineError};
ghost use Rattle.command_line.specs.Named.{name_of};
ghost use Rattle.command_line.specs.Names.{AreApart, IsApart, KeepsFiles, HasEnding, even_name, has_name, is_device, odd_name, read_beside};

use crate::request::{Command, Outputs};
use requests::error::{ArgumentError, CheckFile, MuError};
use std::alloc::{AllocError, Global};

/// The names of both files of evidence.
#[derive(Drop)]
pub struct EvidenceNames {
    pub even: String,
    pub odd: String,
}

impl EvidenceNames {
    /// `PATH.even` and `PATH.odd`.
    pub fn of(alloc: Global, path: &str) -> Result<EvidenceNames, AllocError>
        ensures even { IfOk result (λ names. string_bytes names.even ≡ even_name path.now) }
        ensures odd { IfOk result (λ names. string_bytes names.odd ≡ odd_name path.now) }
    {
        let even = joined(alloc, path, ".even")?;
        let odd = joined(alloc, path, ".odd")?;
        Ok(EvidenceNames { even, odd })
    }
}

fn joined(alloc: Global, path: &str, ending: &str) -> Result<String, AllocError>
    ensures { IfOk result (λ name. string_bytes name ≡ path.now ++ ending.now) }
{
    let mut name = String::from_str(alloc, path)?;
    name.push_str(ending)?;
    Ok(name)
}

/// A file of a command, with its name if the command has such a file.
#[derive(Clone, Copy)]
pub struct Named<'a> {
    pub file: CheckFile,
    pub name: Option<&'a str>,
}

/// Refuses a command that would write to a file twice, or to one that it reads.
///
/// # Errors
/// U1, with both files; U4.
pub fn keep_files(alloc: Global, command: &Command<'_>) -> Result<(), MuError>
    ensures kept { IfOk result (λ _. KeepsFiles command.now) }
    ensures refused { IfErr result (IsLineError (KeepsFiles command.now → ⊥)) }
{
    let outputs = command.outputs();
    let Some(path) = outputs.evidence else {
        return keep_apart(command, &outputs, None, None).map_err(MuError::Arguments);
    };
    let Ok(names) = EvidenceNames::of(alloc, path) else {
        return Err(MuError::Memory);
    };
    let (even, odd) = (names.even.as_str(), names.odd.as_str());
    keep_apart(command, &outputs, Some(even), Some(odd)).map_err(MuError::Arguments)
}

fn keep_apart(
    command: &Command<'_>,
    outputs: &Outputs<'_>,
    even: Option<&str>,
    odd: Option<&str>,
) -> Result<(), ArgumentError>
    ensures kept { IfOk result (λ _. AreApart (option_map (λ name. name.now) outputs.now.game ∷ option_map (λ name. name.now) even.entry
        ∷ option_map (λ name. name.now) odd.entry ∷ option_map (λ name. name.now) outputs.now.witness ∷ []) (read_beside command.now)) }
    ensures only { IfErr result (λ _. AreApart (option_map (λ name. name.now) outputs.now.game ∷ option_map (λ name. name.now) even.entry
        ∷ option_map (λ name. name.now) odd.entry ∷ option_map (λ name. name.now) outputs.now.witness ∷ []) (read_beside command.now) → ⊥) }
{
    let file = |file, name| Named { file, name };
    let [main, formula, ..] = command.files();
    let main = file(command.main_file(), main);
    let formula = file(CheckFile::Formula, formula);
    let game = file(CheckFile::Game, outputs.game);
    let even = file(CheckFile::EvenEvidence, even);
    let odd = file(CheckFile::OddEvidence, odd);
    let witness = file(CheckFile::Witness, outputs.witness);
    apart(game, &[even, odd, witness, main, formula])?;
    apart(even, &[odd, witness, main, formula])?;
    apart(odd, &[witness, main, formula])?;
    apart(witness, &[main, formula])
}

/// Refuses a file that has another one's name.
fn apart(one: Named<'_>, others: &[Named<'_>]) -> Result<(), ArgumentError>
    ensures apart { IfOk result (λ _. IsApart (name_of one.entry) (map name_of others.now)) }
    ensures only { IfErr result (λ _. IsApart (name_of one.entry) (map name_of others.now) → ⊥) }
{
    let Some(name) = one.name else {
        return Ok(());
    };
    if is_device(name) {
        return Ok(());
    }
    if !is_among(name, others) {
        return Ok(());
    }
    let other = others.iter().find(|other| has_name(name, other));
    let other = other.map_or(one.file, |other| other.file);
    Err(ArgumentError::SameFile(one.file, other))
}

fn is_among(name: &str, files: &[Named<'_>]) -> bool
    ensures { result ≡ list_any (λ file. has_name name.now (name_of file)) files.now }
{
    files.iter().any(|file| has_name(name, file))
}

/// Whether any number of texts may go there.
pub fn is_device(name: &str) -> bool
    ensures { result ≡ is_device name.now }
{
    name == "/dev/null" || name == "/dev/stdout" || name == "/dev/stderr"
}

fn has_name(name: &str, file: &Named<'_>) -> bool
    ensures { result ≡ has_name name.now (name_of file.now) }
{
    match file.name {
        Some(other) => other == name,
        None => false,
    }
}

/// Whether a witness is written as a drawing: where the name of its file ends with `.dot` or `.gv`, in small letters or capital ones.
pub fn is_drawing(name: &str) -> bool
    ensures { IsTrue result ↔ (HasEnding (codes ".dot") name.now ⊎ HasEnding (codes ".gv") name.now) }
{
    has_ending(name.as_bytes(), b".dot") || has_ending(name.as_bytes(), b".gv")
}

/// Whether the name ends so, whatever letters are capital ones.
pub fn has_ending(name: &[u8], ending: &[u8]) -> bool
    ensures { IsTrue result ↔ HasEnding ending.now name.now }
{
    if name.len() < ending.len() {
        return false;
    }
    name[name.len() - ending.len()..].eq_ignore_ascii_case(ending)
}
