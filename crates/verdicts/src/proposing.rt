// The least measures of both players that are guessed and found good, and the states that satisfy a formula by them.

ghost use Rattle.std.specs.Prelude.{◌≡◌, ◌≢◌, ◌+◌, ◌*◌, ◌<◌, ◌≤◌, IfErr, IfOk, IfSome, Some, length};
ghost use Rattle.calculus.specs.Closed.{closed_formula};
ghost use Rattle.calculus.specs.Meaning.{MarksOf};
ghost use Rattle.calculus.specs.Normal.{normal_nodes};
ghost use Rattle.game.specs.declared.limits.TheConstants.{MOST_VERTICES};
ghost use Rattle.game.specs.declared.player.Player.TheVariants.{Even};
ghost use Rattle.game.specs.Arena.{arena, place};
ghost use Rattle.measures.specs.Measure.{Top};
ghost use Rattle.measures.specs.Progress.{value_at};
ghost use Rattle.measures.specs.StoredProposal.{values_of};
ghost use Rattle.rankings.specs.Least.{AreWinnersMoves};
ghost use Rattle.requests.specs.Check.{AreMarks, ByGame};
ghost use Rattle.verdicts.specs.Findings.{AreLeastOf, IsLeastFound};

use arena_search::measures::{GuessedField, GuessedLayout, GuessedMeasures, least_measures};
use arrayvec::ArrayVec;
use calculus::form::Normal;
use game::observer::{Observer, Stage};
use game::player::Player;
use laws::games::least_decides;
use laws::{chosen_is_admissible, even_wins_where_meant};
use lts::system::Lts;
use measures::field::CountField;
use measures::measure::COMPONENTS;
use measures::proposal::{PlayerLayout, Proposals, SHIFTS};
use normal::make::normal_with;
use rankings::least::least_moves;
use requests::error::MuError;
use requests::request::Options;
use requests::texts::Texts;
use std::alloc::{AllocError, Global};

// The greatest shift of a number.
const LAST_SHIFT: u32 = 63;

fn field(guess: GuessedField) -> CountField {
    CountField {
        left: guess.left,
        right: guess.right,
    }
}

fn layout(guess: &GuessedLayout) -> PlayerLayout {
    let mut fields = ArrayVec::new();
    for place in 0..COMPONENTS {
        if place < guess.fields.len() {
            fields.push(field(guess.fields[place]));
        }
    }
    let mut shifts = [0; SHIFTS];
    for priority in 0..SHIFTS {
        shifts[priority] = guess.shifts.get(priority).copied().unwrap_or(LAST_SHIFT);
    }
    PlayerLayout { fields, shifts }
}

/// What is guessed of the least measures of both players, to be tested.
pub fn proposals_of(guess: GuessedMeasures) -> Proposals
    ensures { result.rows ≡ guess.rows }
{
    Proposals {
        vertices: guess.vertices,
        width: guess.width,
        even: layout(&guess.even),
        odd: layout(&guess.odd),
        rows: guess.rows,
    }
}

/// The formula's normal form, the least measures of both players in the arena of the system and this form, and for each vertex the move of the one who wins it.
#[derive(Drop)]
pub struct LeastFound {
    pub form: Normal,
    pub proposals: Proposals,
    pub moves: Vec<u32>,
}

/// The least measures of both players, as they are guessed and found good, and for each vertex the move of the one who wins it.
pub fn least_of(alloc: Global, system: &Lts, form: &Normal) -> Option<(Proposals, Vec<u32>)>
    ensures few { IfSome result (λ _. 2 + system.now.system.states * length (normal_nodes form.now) ≤ MOST_VERTICES) }
    ensures least { IfSome result (λ found. AreLeastOf system.now.system (normal_nodes form.now) found.0) }
    ensures moves { IfSome result (λ found. AreWinnersMoves found.0 (arena system.now.system (normal_nodes form.now)) found.1.items) }
{
    let proposals = proposals_of(least_measures(alloc, system, form)?);
    let moves = least_moves(alloc, system, form, &proposals)?;
    Some((proposals, moves))
}

/// The least measures of both players, as they are guessed and found good. There are none where the guess isn't good, where a limit is passed, or where
/// memory runs out; nor where a board is named, over which workers are to lift. An observer is told that they are searched for.
pub fn least_found<O: Observer>(
    alloc: Global,
    texts: &Texts,
    options: &Options,
    observer: &O,
) -> Option<LeastFound>
    ensures { IfSome result (IsLeastFound options.now.priorities options.now.board texts.now.system.system (closed_formula texts.now.formula)) }
{
    let Texts { system, formula } = texts;
    let states = system.states();
    if options.board.is_named() {
        return None;
    }
    match normal_with(alloc, formula, options.priorities) {
        Ok(form) => {
            let vertices = 2 + states * form.count();
            observer.sees(Stage::Searching { vertices });
            let (proposals, moves) = least_of(alloc, system, &form)?;
            Some(LeastFound {
                form,
                proposals,
                moves,
            })
        }
        Err(_) => None,
    }
}

// A mark for each state, true where Even wins its vertex with the root node.
fn root_marks_of(
    alloc: Global,
    proposals: &Proposals,
    states: u32,
    nodes: u32,
) -> Result<Vec<bool>, AllocError>
    requires some { 0 < nodes }
    requires few { 2 + states * nodes ≤ MOST_VERTICES }
    ensures { IfOk result (λ marks. MarksOf states marks.items (λ s. value_at (values_of Even proposals.now) (place nodes s 0) ≢ Top)) }
{
    let mut marks = Vec::with_capacity(alloc, states as usize)?;
    for state in 0..states {
        let root = 2 + state * nodes;
        let is_lost = proposals.value(Player::Even, root as usize).is_top();
        marks.push(!is_lost)?;
    }
    Ok(marks)
}

/// A mark for each state, true where it satisfies the formula, by the least measures of its game, which isn't stored.
///
/// # Errors
/// U4.
pub fn least_marks(
    alloc: Global,
    texts: &Texts,
    options: &Options,
    least: &LeastFound,
) -> Result<Vec<bool>, MuError>
    requires { IsLeastFound options.now.priorities options.now.board texts.now.system.system (closed_formula texts.now.formula) least.now }
    ensures marks { IfOk result (λ marks. AreMarks (ByGame options.now.priorities (Some options.now.board)) texts.now.system.system
        (closed_formula texts.now.formula) marks.items) }
    ensures refusal { IfErr result (λ e. e ≡ MuError.Memory) }
{
    // For the proof alone: clauses name them.
    let _ = options;
    chosen_is_admissible();
    even_wins_where_meant();
    least_decides();
    least.form.known();
    let states = texts.system.states();
    Ok(root_marks_of(alloc, &least.proposals, states, least.form.count())?)
}
