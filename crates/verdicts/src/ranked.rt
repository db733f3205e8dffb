// The states that satisfy a formula, by a ranking of its parity game, which isn't stored.

ghost use Rattle.std.specs.Prelude.{◌≡◌, ◌+◌, ◌*◌, ◌≤◌, IfSome, Some, length};
ghost use Rattle.calculus.specs.Closed.{closed_formula};
ghost use Rattle.calculus.specs.Meaning.{MarksOf};
ghost use Rattle.calculus.specs.Normal.{normal_nodes};
ghost use Rattle.game.specs.declared.limits.TheConstants.{MOST_VERTICES};
ghost use Rattle.game.specs.Arena.{arena, place};
ghost use Rattle.game.specs.Wins.{Wins};
ghost use Rattle.requests.specs.Check.{AreMarks, ByGame};
ghost use Rattle.verdicts.specs.Findings.{IsRankedFound};

use crate::threads::thread_count;
use arena_search::ranking::ranking;
use calculus::closed::Closed;
use calculus::form::Normal;
use game::observer::{Observer, Stage};
use laws::{chosen_is_admissible, even_wins_where_meant};
use lts::system::Lts;
use normal::make::normal_with;
use rankings::sheet::Sheet;
use rankings::winners::root_winners;
use requests::request::Options;
use std::alloc::Global;
use std::thread::Threads;

// The ranking that is searched for, if there is one.
fn found_sheet(alloc: Global, system: &Lts, form: &Normal) -> Option<Sheet> {
    let found = ranking(alloc, system, form)?;
    Sheet::of(found.columns, found.even_shifts, found.odd_shifts)
}

/// The formula's normal form, a ranking of the arena of the system and this form, found good, and a mark for each state, true where it satisfies the formula.
#[derive(Drop)]
pub struct RankedFound {
    pub form: Normal,
    pub sheet: Sheet,
    pub marks: Vec<bool>,
}

// The ranking that is found, where it is good, and a mark for each state, true where Even wins its vertex with the root node. So many threads test it.
fn ranked_of<H: Threads + Sync>(
    rt: &H,
    alloc: Global,
    system: &Lts,
    form: Normal,
    threads: u32,
) -> Option<RankedFound>
    ensures form { IfSome result (λ found. normal_nodes found.form ≡ normal_nodes form) }
    ensures few { IfSome result (λ _. 2 + system.now.system.states * length (normal_nodes form) ≤ MOST_VERTICES) }
    ensures wins { IfSome result (λ found. MarksOf system.now.system.states found.marks.items
        (λ s. Wins (arena system.now.system (normal_nodes form)) (place (length (normal_nodes form)) s 0))) }
{
    let sheet = found_sheet(alloc, system, &form)?;
    let marks = root_winners(rt, alloc, system, &form, &sheet, threads)?;
    Some(RankedFound { form, sheet, marks })
}

/// A ranking of the game of both that is searched for and found good, with the marks of the states by it. There is none where it isn't good, where a limit is
/// passed, or where memory runs out; nor where a board is named, over which workers are to lift. As many threads work as there are workers, and no more than
/// there are processors. An observer is told that winners are searched for.
pub fn ranked_found<O: Observer, H: Threads + Sync>(
    rt: &H,
    alloc: Global,
    system: &Lts,
    formula: &Closed,
    options: &Options,
    observer: &O,
) -> Option<RankedFound>
    ensures { IfSome result (IsRankedFound options.now.priorities options.now.board system.now.system (closed_formula formula.now)) }
{
    chosen_is_admissible();
    even_wins_where_meant();
    let states = system.states();
    if options.board.is_named() {
        return None;
    }
    match normal_with(alloc, formula, options.priorities) {
        Ok(form) => {
            let vertices = 2 + states * form.count();
            observer.sees(Stage::Searching { vertices });
            let threads = thread_count(rt, options.workers as usize);
            ranked_of(rt, alloc, system, form, u32::try_from(threads).unwrap_or(1))
        }
        Err(_) => None,
    }
}

/// A mark for each state, true where it satisfies the formula, by the ranking of `ranked_found`.
pub fn ranked_marks<O: Observer, H: Threads + Sync>(
    rt: &H,
    alloc: Global,
    system: &Lts,
    formula: &Closed,
    options: &Options,
    observer: &O,
) -> Option<Vec<bool>>
    ensures { let l = system.now.system in let f = closed_formula formula.now in
        IfSome result (λ marks. AreMarks (ByGame options.now.priorities (Some options.now.board)) l f marks.items) }
{
    let RankedFound { marks, .. } = ranked_found(rt, alloc, system, formula, options, observer)?;
    Some(marks)
}
