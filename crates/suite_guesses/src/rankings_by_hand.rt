// Rankings of arenas, made by hand: which are good, and what they tell.

use game::column::{Column, Columns, Marked};
use rankings::sheet::Sheet;
use rankings::winners::root_winners;
use samples::holds;
use samples::host::Host;
use samples::texts::{form_of, system_read};

// From state 0 to state 1 by `a`; from there nothing goes on. State 2 leads to itself by `b`.
const SYSTEM: &str = "des (0,2,3)\n(0,\"a\",1)\n(2,\"b\",2)\n";

// The columns of a ranking as they are written, by node, and the states that Even wins by it, if it is a good one.
type Ranked = (&'static [[u64; 3]], Option<[bool; 3]>);

// The shifts of Even and of Odd.
type Shifts = [&'static [u32]; 2];

// What a table says of a state: Even wins it, or Odd does.
const E: bool = true;

const O: bool = false;

// No list.
const NONE: u32 = u32::MAX;

fn list_of(rt: &impl Host, numbers: &[u32]) -> Vec<u32> {
    Vec::from_slice(rt.alloc(), numbers).expect(rt, "memory")
}

// The first three are places, the others numbers.
fn won([marks, counts, words]: [u32; 3], [even, odd, unit]: [u64; 3]) -> Column {
    Column::Won(Marked {
        marks,
        even,
        odd,
        unit,
        counts,
        words,
    })
}

// Columns, each of which is a list of its own. Or else each has the marks of the states that Odd wins and the numbers of both players, with twos for what
// is counted by one list: one at the first state, none at the others.
fn columns_of(rt: &impl Host, rows: &[[u64; 3]], is_counted: bool) -> Columns {
    let (mut nodes, mut marks) = (Vec::new(rt.alloc()), Vec::new(rt.alloc()));
    let (mut counts, mut words) = (Vec::new(rt.alloc()), Vec::new(rt.alloc()));
    let mut place = 0_u32;
    for row in rows {
        let column = if is_counted {
            marks.push(row[0]).expect(rt, "memory");
            won([place, 0, NONE], [row[1], row[2], 2])
        } else {
            let list = Vec::from_slice(rt.alloc(), row.as_slice()).expect(rt, "memory");
            words.push(list).expect(rt, "memory");
            won([0, NONE, place], [0, 0, 0])
        };
        nodes.push(column).expect(rt, "memory");
        place = place.wrapping_add(1);
    }
    if is_counted {
        counts.push(list_of(rt, &[1, 0, 0])).expect(rt, "memory");
    }
    Columns {
        nodes,
        marks,
        counts,
        words,
    }
}

// The states that Even wins in the game of a formula by a sheet of these columns and shifts, if there is a good one.
fn winners(rt: &impl Host, text: &str, columns: Columns, shifts: Shifts) -> Option<Vec<bool>> {
    let lts = system_read(rt.alloc(), SYSTEM).expect(rt, "a system");
    let form = form_of(rt.alloc(), text).expect(rt, "a formula");
    let sheet = Sheet::of(columns, list_of(rt, shifts[0]), list_of(rt, shifts[1]));
    let marks = match &sheet {
        Some(sheet) => root_winners(rt, rt.alloc(), &lts, &form, sheet, 1),
        None => None,
    };
    drop(sheet);
    drop(form);
    drop(lts);
    marks
}

fn are_told(rt: &impl Host, text: &str, shifts: Shifts, rows: &[Ranked], is_counted: bool) {
    for (columns, found) in rows {
        let marks = winners(rt, text, columns_of(rt, columns, is_counted), shifts);
        let is_so = match (&marks, found) {
            (Some(marks), Some(found)) => marks.as_slice() == found.as_slice(),
            (None, None) => true,
            _ => false,
        };
        drop(marks);
        holds!(rt; is_so, text);
    }
}

// What columns tell that are lists of their own.
fn are_ranked(rt: &impl Host, text: &str, shifts: Shifts, rows: &[Ranked]) {
    are_told(rt, text, shifts, rows, false);
}

// One step by `a`: where there is none the diamond leads to the false sink, whose number is 1, and has to be above it where the mark doesn't count.
static DIAMONDS: [Ranked; 4] = [
    (&[[0, 3, 3], [0, 0, 0]], Some([E, O, O])),
    (&[[0, 1, 3], [0, 0, 0]], None),
    (&[[0, 0, 3], [0, 0, 0]], None),
    (&[[3, 3, 3], [0, 0, 0]], None),
];

#[test]
fn a_diamond_without_a_step_is_odds(rt: HostRuntime) {
    are_ranked(&rt, "<a>true", [&[0], &[1]], &DIAMONDS);
}

// A box without a step leads to the true sink, and is Even's.
static BOXES: [Ranked; 3] = [
    (&[[3, 0, 0], [3, 3, 3]], None),
    (&[[5, 0, 0], [3, 3, 3]], Some([O, E, E])),
    (&[[5, 5, 0], [3, 3, 3]], None),
];

#[test]
fn a_box_without_a_step_is_evens(rt: HostRuntime) {
    are_ranked(&rt, "[a]false", [&[0], &[1]], &BOXES);
}

// The least fixpoint that only goes on is Odd's everywhere, the greatest is Even's where a step follows a step for ever.
static LEAST: [Ranked; 2] = [
    (&[[3, 3, 3], [7, 7, 7], [5, 5, 5]], Some([O, O, O])),
    (&[[0, 0, 0], [0, 0, 0], [0, 0, 0]], None),
];

static GREATEST: [Ranked; 2] = [
    (&[[11, 5, 0], [9, 3, 0], [13, 7, 0]], Some([O, O, E])),
    (&[[0, 0, 0], [0, 0, 0], [0, 0, 0]], None),
];

#[test]
fn fixpoints_that_only_go_on(rt: HostRuntime) {
    are_ranked(&rt, "mu X. <true>X", [&[0], &[1, 4]], &LEAST);
    are_ranked(&rt, "nu X. <true>X", [&[0], &[1]], &GREATEST);
}

// A binder, its operand and its variable count by the same list. Where no way is endless a box is won by how far the end is, and the binder above it by one
// more; at the last state by nobody's end. Two are good; of the others the first stays, and then one rises, climbs, lies and wraps.
static COUNTS: [Ranked; 7] = [
    (&[[4, 2, 3], [4, 0, 7], [4, 2, 5]], Some([E, E, O])),
    (&[[4, 4, 3], [4, 2, 7], [4, 4, 5]], Some([E, E, O])),
    (&[[4, 0, 3], [4, 0, 7], [4, 0, 5]], None),
    (&[[4, 2, 3], [4, 0, 7], [4, 0, 5]], None),
    (&[[4, 2, 3], [4, 0, 7], [4, 2, 3]], None),
    (&[[0, 2, 3], [4, 0, 7], [4, 2, 5]], None),
    (
        &[[4, u64::MAX - 1, 3], [4, 0, 7], [4, u64::MAX - 1, 5]],
        None,
    ),
];

#[test]
fn nodes_that_count_by_one_list(rt: HostRuntime) {
    are_told(&rt, "mu X. [true]X", [&[0, 1], &[1, 4]], &COUNTS, true);
}

// A sheet needs a column for each node and a number for each state, and shifts that don't fall.
static SHORT: [Ranked; 1] = [(&[[0, 3, 3]], None)];

static REFUSED: [Ranked; 1] = [(&[[0, 3, 3], [0, 0, 0]], None)];

#[test]
fn sheets_of_the_wrong_shape(rt: HostRuntime) {
    are_ranked(&rt, "<a>true", [&[0], &[1]], &SHORT);
    are_ranked(&rt, "<a>true && true", [&[0], &[1]], &REFUSED);
    are_ranked(&rt, "<a>true", [&[2, 1], &[1]], &REFUSED);
    are_ranked(&rt, "<a>true", [&[0], &[64]], &REFUSED);
}
