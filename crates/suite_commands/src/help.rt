// What `mucheck --help` shows. The script `./mucheck` takes the lines from here as long as the program isn't built: those from the
// one that begins the text to the one that ends it.

pub(crate) const HELP: &str =
    r#"Checks formulas of the modal mu-calculus at the states of labelled transition systems

Usage: mucheck <COMMAND>

Commands:
  check    Reports for each state of a system whether it satisfies a formula
  why      Tells why a system satisfies a formula, or why it does not
  table    Reports for each of many formulas whether a system satisfies it
  labels   Lists the labels of a system, the most frequent first
  normal   Writes the normal form of a formula, a line for each node
  solve    Writes for each vertex of a parity game who wins it
  verify   Checks evidence that a player wins vertices of a parity game
  replay   Writes what the events of a schedule come to in a parity game
  explain  Tells what a code of a refusal means, and how to fix it
  help     Tells what a command does, or which commands there are
  version  Tells the version, and what proved it

Options:
  -h, --help     Print help
  -V, --version  Print version

mucheck help COMMAND says more of a command; for a pager, mucheck help | less. One of the
files that it reads may be -, which is standard input.

A refusal begins with a line on standard error, mucheck: CODE, with its place. The command
mucheck explain CODE says what it means and how to fix it. The most frequent:
  A1      mostly both files in the wrong order, or a byte order mark
  A2      mostly a label without quotes
  F1, F2  in a modality mostly a label with parameters, which wants quotes: <"send(1)">true
  F8      each sign nests, in a row too: put parentheses around halves of a long row
  B1      the game is too large: check --plain has no such limit
"#;
