// Who wins an arena that isn't stored.

ghost use Rattle.std.specs.Prelude.{◌≡◌, ◌+◌, ◌*◌, ◌<◌, ◌≤◌, IfOk, IfSome, IsTrue, length, map};
ghost use Rattle.std.specs.Thread.{IsSync};
ghost use Rattle.calculus.specs.Meaning.{MarksOf};
ghost use Rattle.calculus.specs.Normal.{normal_nodes};
ghost use Rattle.game.specs.declared.limits.TheConstants.{MOST_VERTICES};
ghost use Rattle.game.specs.Arena.{arena, place};
ghost use Rattle.calculus.specs.Taken.{AreSets};
ghost use Rattle.game.specs.Wins.{Wins};
ghost use Rattle.rankings.specs.Cells.{cell, ranking_of};
ghost use Rattle.rankings.specs.Ranking.{IsGoodRanking, winner_of};
ghost use Rattle.rankings.specs.Spans.{AreRanked};

use crate::nodes::{Span, is_ranked, is_winner};
use crate::ranking_decides;
use crate::sheet::Sheet;
use calculus::form::Normal;
use calculus::label_sets::label_sets;
use game::limits::MOST_VERTICES;
use game::player::Player;
use std::alloc::{AllocError, Global};
use std::thread::{Threads, join};
use systems::system::Lts;

// An arena of fewer vertices is looked at by one thread, since more of them cost more than they save.
const LEAST_SPLIT: u64 = 262_144;

// Whether the vertices of all nodes with the states of a span are ranked.
fn are_ranked(lts: &Lts, form: &Normal, sets: &[Vec<bool>], sheet: &Sheet, span: Span) -> bool
    requires sets { AreSets lts.now.labels (normal_nodes form.now) (map (λ set. set.items) sets.now) }
    requires count { length sets.now ≡ length (normal_nodes form.now) }
    requires nodes { length sheet.now.nodes ≡ length (normal_nodes form.now) }
    requires states { span.end ≤ lts.now.system.states }

    ensures { IsTrue result → AreRanked lts.now (normal_nodes form.now) sheet.now span.first span.end }
{
    form.known();
    for number in 0..form.count() {
        let set = sets[number as usize].as_slice();
        if !is_ranked(lts, sheet, number, form.node(number), set, span) {
            return false;
        }
    }
    true
}

// Whether the vertices of all nodes with the states of a span are ranked. So many threads look at the states, each at as many.
#[cycle(spans)]
fn are_ranked_by<R: Threads + Sync>(
    rt: &R,
    lts: &Lts,
    form: &Normal,
    sets: &[Vec<bool>],
    sheet: &Sheet,
    span: Span,
    threads: u32,
) -> bool
    requires sets { AreSets lts.now.labels (normal_nodes form.now) (map (λ set. set.items) sets.now) }
    requires count { length sets.now ≡ length (normal_nodes form.now) }
    requires nodes { length sheet.now.nodes ≡ length (normal_nodes form.now) }
    requires states { span.end ≤ lts.now.system.states }

    ensures { IsTrue result → AreRanked lts.now (normal_nodes form.now) sheet.now span.first span.end }
{
    if threads <= 1 {
        return are_ranked(lts, form, sets, sheet, span);
    }
    let (first, rest) = span.cut(threads);
    let see_first = || -> bool
        requires sets { AreSets lts.now.labels (normal_nodes form.now) (map (λ set. set.items) sets.now) }
        requires count { length sets.now ≡ length (normal_nodes form.now) }
        requires nodes { length sheet.now.nodes ≡ length (normal_nodes form.now) }
        requires states { first.end ≤ lts.now.system.states }

        ensures { IsTrue result → AreRanked lts.entry.now (normal_nodes form.entry.now) sheet.entry.now first.first first.end }
    { are_ranked(lts, form, sets, sheet, first) };
    let see_rest = || -> bool
        requires sync { IsSync R.row }
        requires threads { 0 < threads }
        requires sets { AreSets lts.now.labels (normal_nodes form.now) (map (λ set. set.items) sets.now) }
        requires count { length sets.now ≡ length (normal_nodes form.now) }
        requires nodes { length sheet.now.nodes ≡ length (normal_nodes form.now) }
        requires states { rest.end ≤ lts.now.system.states }

        ensures { IsTrue result → AreRanked lts.entry.now (normal_nodes form.entry.now) sheet.entry.now rest.first rest.end }
    { are_ranked_by(rt, lts, form, sets, sheet, rest, threads - 1) };
    let (is_first, is_rest) = join(rt, see_first, see_rest);
    is_first && is_rest
}

// Whether a sheet is a good ranking of the arena. So many threads look at it.
fn is_good<R: Threads + Sync>(
    rt: &R,
    lts: &Lts,
    form: &Normal,
    sets: &[Vec<bool>],
    sheet: &Sheet,
    threads: u32,
) -> bool
    requires sets { AreSets lts.now.labels (normal_nodes form.now) (map (λ set. set.items) sets.now) }
    requires count { length sets.now ≡ length (normal_nodes form.now) }
    ensures size { IsTrue result → length sheet.now.nodes ≡ length (normal_nodes form.now) }
    ensures good { IsTrue result → IsGoodRanking (arena lts.now.system (normal_nodes form.now)) (ranking_of sheet.now) }
{
    sheet.known();
    let states = lts.states();
    let whole = Span {
        first: 0,
        end: states,
    };
    sheet.has_size(form.count()) && are_ranked_by(rt, lts, form, sets, sheet, whole, threads)
}

// A mark for each state, true where the sheet says that Even wins its vertex with the root node.
fn marks_of(alloc: Global, sheet: &Sheet, states: u32) -> Result<Vec<bool>, AllocError>
    ensures { IfOk result (λ marks. MarksOf states marks.items (λ s. winner_of (cell sheet.now 0 s) ≡ Player.Even)) }
{
    let column = sheet.column(0);
    let mut marks = Vec::with_capacity(alloc, states as usize)?;
    for s in 0..states {
        marks.push(is_winner(Player::Even, column.number(s)))?;
    }
    Ok(marks)
}

// The marks of a sheet that is a good ranking.
fn checked_marks<R: Threads + Sync>(
    rt: &R,
    alloc: Global,
    lts: &Lts,
    form: &Normal,
    sets: &[Vec<bool>],
    sheet: &Sheet,
    threads: u32,
) -> Option<Vec<bool>>
    requires sets { AreSets lts.now.labels (normal_nodes form.now) (map (λ set. set.items) sets.now) }
    requires count { length sets.now ≡ length (normal_nodes form.now) }
    requires few { 2 + lts.now.system.states * length (normal_nodes form.now) ≤ MOST_VERTICES }
    ensures { IfSome result (λ marks. MarksOf lts.now.system.states marks.items
        (λ s. Wins (arena lts.now.system (normal_nodes form.now)) (place (length (normal_nodes form.now)) s 0))) }
{
    form.known();
    ranking_decides();
    let states = lts.states();
    if !is_good(rt, lts, form, sets, sheet, threads) {
        return None;
    }
    match marks_of(alloc, sheet, states) {
        Ok(marks) => Some(marks),
        Err(AllocError) => None,
    }
}

/// A mark for each state, true where Even wins its vertex with the root node in the arena of a system and a normal form, which isn't
/// stored. There is none where the sheet is no good ranking of the arena, where the arena has too many vertices for a game, or where memory runs out.
/// Of a large arena so many threads look at the states, each at as many.
pub fn root_winners<R: Threads + Sync>(
    rt: &R,
    alloc: Global,
    lts: &Lts,
    form: &Normal,
    sheet: &Sheet,
    threads: u32,
) -> Option<Vec<bool>>
    ensures few { IfSome result (λ _. 2 + lts.now.system.states * length (normal_nodes form.now) ≤ MOST_VERTICES) }
    ensures wins { IfSome result (λ marks. MarksOf lts.now.system.states marks.items
        (λ s. Wins (arena lts.now.system (normal_nodes form.now)) (place (length (normal_nodes form.now)) s 0))) }
{
    form.known();
    let vertices = 2 + u64::from(lts.states()) * u64::from(form.count());
    if vertices > MOST_VERTICES as u64 {
        return None;
    }
    let threads = if vertices < LEAST_SPLIT { 1 } else { threads };
    match label_sets(alloc, lts, form) {
        Ok(sets) => checked_marks(rt, alloc, lts, form, &sets, sheet, threads),
        Err(AllocError) => None,
    }
}
