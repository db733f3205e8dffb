// The files that a command reads, of which one may be standard input.

ghost use Rattle.std.specs.Prelude.{◌≡◌, ◌↔◌, IsTrue, count_by};
ghost use Rattle.command_line.specs.Files.{ReadsItOnce, is_input, is_standard_input};

use crate::request::Command;

/// Whether a command reads standard input once at most.
pub fn reads_once(command: &Command<'_>) -> bool
    ensures { IsTrue result ↔ ReadsItOnce command.now }
{
    let inputs = inputs_among(&command.files());
    inputs <= 1 && standard_inputs(command.formulas()) <= 1 - inputs
}

/// How many of these files are standard input.
fn inputs_among(files: &[Option<&str>]) -> usize
    ensures { result ≡ count_by is_input files.now }
{
    files
        .iter()
        .filter(|file| file.is_some_and(is_standard_input))
        .count()
}

/// How many of these names are that of standard input.
fn standard_inputs(names: &[&str]) -> usize
    ensures { result ≡ count_by (λ file. is_standard_input file.now) names.now }
{
    names.iter().filter(|name| is_standard_input(name)).count()
}

/// Whether the name is that of standard input.
pub fn is_standard_input(name: &str) -> bool
    ensures { result ≡ is_standard_input name.now }
{
    name == "-"
}
