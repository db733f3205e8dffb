// What commands are asked for. The files are named as on the command line.

ghost use Rattle.std.specs.Prelude.{◌≡◌, ◌≤◌, ◌↔◌, None, IsTrue, false};

use calculus::priorities::Priorities;
pub use workers::team::BoardKind;

/// The rule of priorities, and workers, locked shards and board.
#[derive(Clone, Copy)]
pub struct Options {
    pub priorities: Priorities,
    pub workers: u32,
    pub shards: u32,
    pub board: BoardKind,
    pub ghost some_workers: { 1 ≤ workers },
    pub ghost few_workers: { workers ≤ 64 },
    pub ghost some_shards: { 1 ≤ shards },
    pub ghost few_shards: { shards ≤ 256 },
}

/// A check of a formula at each state of a system.
#[derive(Clone, Copy)]
pub struct Check<'a> {
    pub system: &'a str,
    pub formula: &'a str,
    pub options: Options,
    /// By sets of states, without a game.
    pub plain: bool,
    /// With a refusal where a name or a quoted label of the formula is on no transition.
    pub strict: bool,
}

/// Why the initial state satisfies a formula, or doesn't: the answer and a play that shows it.
#[derive(Clone, Copy)]
pub struct Why<'a> {
    pub system: &'a str,
    pub formula: &'a str,
    pub options: Options,
    /// How many lines of the play are told at most. Where it is 0, all are.
    pub limit: u32,
    /// With a refusal where a name or a quoted label of the formula is on no transition.
    pub strict: bool,
}

/// The answers of one system to many formulas, a line for each.
#[derive(Drop)]
pub struct Table<'a> {
    pub system: &'a str,
    pub formulas: Vec<&'a str>,
    pub options: Options,
    /// By sets of states, without a game.
    pub plain: bool,
    /// With a refusal of each formula of which a name or a quoted label is on no transition.
    pub strict: bool,
    /// Whether standard error tells of each stage.
    pub stats: bool,
}

/// The normal form of a formula, with the priorities of a rule.
#[derive(Clone, Copy)]
pub struct Normalize<'a> {
    pub formula: &'a str,
    pub priorities: Priorities,
}

/// Who wins each vertex of a game.
#[derive(Clone, Copy)]
pub struct Solve<'a> {
    pub game: &'a str,
    pub options: Options,
    /// The files of Even's and of Odd's evidence, without `.even` and `.odd`.
    pub evidence: Option<&'a str>,
    /// Whether standard error tells of each stage.
    pub stats: bool,
}

/// Whether evidence is good, or two pieces are and decide the whole game.
#[derive(Clone, Copy)]
pub struct Verify<'a> {
    pub game: &'a str,
    pub evidence: &'a str,
    pub other: Option<&'a str>,
}

/// What the events of a schedule come to in the game of a system and a formula.
#[derive(Clone, Copy)]
pub struct Replay<'a> {
    pub system: &'a str,
    pub formula: &'a str,
    pub schedule: &'a str,
    pub workers: u32,
}

/// In which form a witness is written.
#[derive(Clone, Copy)]
pub enum WitnessForm {
    /// As a system in the Aldebaran format.
    System,
    /// As a directed graph in the format of Graphviz.
    Drawing,
}

/// In which form a report is written.
#[derive(Clone, Copy)]
pub enum ReportForm {
    /// With a line for each state.
    Whole,
    /// Without these lines.
    Summary,
    /// The numbers of the states with this mark, a line each, and nothing else: of all of them, or of the first ones.
    States { mark: bool, most: Option<u32> },
    /// No text at all.
    Nothing,
}

/// Which texts a check by a game writes before its report, and in which form the report.
#[derive(Clone, Copy)]
pub struct Wanted {
    pub game: bool,
    /// That of both players.
    pub evidence: bool,
    pub witness: Option<WitnessForm>,
    pub report: ReportForm,
}

impl Wanted {
    /// Whether nothing is wanted before the report.
    pub fn is_nothing(&self) -> bool
        ensures { IsTrue result ↔ (self.now ≡ record { game = false; evidence = false; witness = None; report = self.now.report }) }
    {
        !self.game && !self.evidence && self.witness.is_none()
    }
}
