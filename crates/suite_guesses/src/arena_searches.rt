// What is searched for in arenas: rankings are good, with the marks of the sets of states by which a formula is defined, and least measures are good
// proposals, for both players. That a search finds them is proved nowhere; whoever searches has what is found tested.

ghost use Rattle.std.specs.Prelude.{◌<◌};

use crate::common::holds_of;
use crate::questions::{Question, roll_question};
use arena_search::measures::least_measures;
use arena_search::ranking::ranking;
use meaning::plain::plain_states;
use measures::proposal::Proposals;
use rankings::least::least_moves;
use rankings::sheet::Sheet;
use rankings::winners::root_winners;
use samples::dice::Dice;
use samples::holds;
use samples::host::Host;
use verdicts::proposing::proposals_of;

// A ranking of a question is found and is good, and its marks are those of the formula's meaning.
fn is_ranked(rt: &impl Host, question: &Question) -> bool {
    let (lts, form) = (&question.lts, &question.form);
    let found = ranking(rt.alloc(), lts, form).expect(rt, "a ranking");
    let sheet = Sheet::of(found.columns, found.even_shifts, found.odd_shifts);
    let sheet = sheet.expect(rt, "shifts that don't fall");
    let winners = root_winners(rt, rt.alloc(), lts, form, &sheet, 1);
    drop(sheet);
    let marks = plain_states(rt.alloc(), lts, &question.formula).expect(rt, "memory");
    winners.expect(rt, "a good ranking").as_slice() == marks.as_slice()
}

// What is proposed for a question: its measures are found.
fn proposed(rt: &impl Host, question: &Question) -> Proposals {
    let guess = least_measures(rt.alloc(), &question.lts, &question.form);
    proposals_of(guess.expect(rt, "measures"))
}

// Whether proposals are no good ones for a question.
fn is_refused(rt: &impl Host, question: &Question, proposals: Proposals) -> bool {
    let moves = least_moves(rt.alloc(), &question.lts, &question.form, &proposals);
    drop(proposals);
    moves.is_none()
}

// Of so many questions, in whose formulas so many binders alternate at least, both are found, and the measures are the least ones of both players.
fn are_found(rt: &impl Host, seed: u32, questions: u32, least: u32)
    requires { least < 6 }
{
    let mut dice = Dice::new(seed);
    for number in 0..questions {
        let question = roll_question(rt, &mut dice, least);
        holds_of(rt, is_ranked(rt, &question), "ranked", number);
        let is_measured = !is_refused(rt, &question, proposed(rt, &question));
        holds_of(rt, is_measured, "measured", number);
        drop(question);
    }
}

#[test]
fn rankings_and_measures_of_arenas_are_good(rt: HostRuntime) {
    are_found(&rt, 29, 5_000, 0);
}

#[test]
fn rankings_and_measures_of_more_arenas_are_good(rt: HostRuntime) {
    are_found(&rt, 32, 5_000, 0);
}

#[test]
fn rankings_and_measures_of_nested_formulas_are_good(rt: HostRuntime) {
    are_found(&rt, 30, 400, 3);
    are_found(&rt, 31, 60, 5);
}

// One in the field of the winner's last count.
fn unit(proposals: &Proposals, number: u64) -> u64 {
    let layout = match number % 2 {
        1 => &proposals.odd,
        _ => &proposals.even,
    };
    match layout.fields.as_slice().last() {
        Some(field) => 1_u64.wrapping_shl(field.right.wrapping_sub(field.left)),
        None => 0,
    }
}

// The number of a vertex has these bits turned, and counts so much more. Past the greatest count comes the least.
fn make_wrong(proposals: &mut Proposals, v: u32, turned: u64, more: u64) {
    let place = (v as usize).saturating_mul((proposals.width as usize).saturating_add(1));
    if place < proposals.rows.len() {
        let number = proposals.rows[place];
        let counted = unit(proposals, number).wrapping_mul(more);
        proposals.rows[place] = (number ^ turned).wrapping_add(counted);
    }
}

// The other player wins a vertex, or a count is one more or one less: these measures aren't the least ones, and are no good proposal, since there is one
// least table only.
#[test]
fn wrong_measures_are_refused(rt: HostRuntime) {
    let mut dice = Dice::new(33);
    for _ in 0..200 {
        let question = roll_question(&rt, &mut dice, 1);
        for (turned, more) in [(1, 0), (0, 1), (0, u64::MAX)] {
            let mut proposals = proposed(&rt, &question);
            let v = 2 + dice.roll(proposals.vertices.saturating_sub(2).max(1));
            make_wrong(&mut proposals, v, turned, more);
            holds!(&rt; is_refused(&rt, &question, proposals));
        }
        drop(question);
    }
}

// Makes all heights zero.
fn drop_heights(proposals: &mut Proposals) {
    let stride = (proposals.width as usize).saturating_add(1);
    for place in 0..proposals.rows.len() {
        if place.checked_rem(stride) != Some(0)
            && let Some(height) = proposals.rows.get_mut(place)
        {
            *height = 0;
        }
    }
}

// Where the play goes round and what it counts stays the same, something has to fall.
#[test]
fn heights_are_needed(rt: HostRuntime) {
    let mut dice = Dice::new(34);
    let mut is_needed = false;
    for _ in 0..200 {
        let question = roll_question(&rt, &mut dice, 3);
        let mut proposals = proposed(&rt, &question);
        drop_heights(&mut proposals);
        is_needed |= is_refused(&rt, &question, proposals);
        drop(question);
    }
    holds!(&rt; is_needed);
}
