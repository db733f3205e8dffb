// Progress measures of a small game, worked out by hand by Jurdziński 2000, for games where the greatest priority counts.

ghost use Rattle.std.specs.Prelude.{◌≡◌, ◌<◌, length};

use crate::common::*;
use measures::progs::{is_measure, lift, prog};
use measures::settle::even_wins;

// The game of `mu Z. nu Y. mu X. (<a>Z || <b>Y)` on the system whose first state leads by a to the second, which leads by b
// to itself. All vertices are Even's.
const NESTED: &str =
    "parity 17;\n0 0 0 0;\n1 1 0 1;\n2 3 0 3;\n3 2 0 4;\n4 1 0 5;\n5 0 0 6,8;\n6 0 0 15;\n7 0 0 2;\n8 0 0 1;\n9 0 0 3;\n10 3 0 11;\n11 2 0 12;\n12 1 0 13;\n13 0 0 14,16;\n14 0 0 1;\n15 0 0 10;\n16 0 0 17;\n17 0 0 11;\n";

/// In place of the counts of top.
const TOP: u32 = 99;

/// Its least measures: the digits are the counts.
pub(crate) static LEAST: [u32; 18] = [
    0, TOP, 20, 10, 11, 10, 10, 20, TOP, 10, 10, 0, 1, 0, TOP, 10, 0, 0,
];

pub(crate) fn nested_binders_game(rt: &impl Host) -> Game {
    game_of(rt, NESTED.as_bytes())
}

pub(crate) fn is_as_wanted(m: &Measure, want: u32) -> bool {
    if want == TOP {
        m.is_top()
    } else {
        !m.is_top() && m.counts() == [want / 10, want % 10].as_slice()
    }
}

// A vertex has this measure in the table, by which it is known who wins it.
fn is_least_at(rt: &impl Abort, game: &Game, table: &Settled, v: u32, want: u32)
    requires { table.now.game ≡ game.now }
{
    holds!(rt; v < game.vertices());
    holds_of(rt, is_as_wanted(&table.value(v), want), "at", u64::from(v));
    let is_won = even_wins(table, v) == (want != TOP);
    holds_of(rt, is_won, "wins at", u64::from(v));
}

#[test]
fn finds_the_least_measures(rt: HostRuntime) {
    let game = nested_binders_game(&rt);
    let table = solved(&rt, &game);
    for v in 0..18u32 {
        is_least_at(&rt, &game, &table, v, LEAST[v as usize]);
    }
}

// A table is raised at one vertex, to what another has there.
fn rises(rt: &impl Abort, table: &mut PlainTable, source: &PlainTable)
    requires same { table.old.game ≡ source.now.game }
    requires vertex { 4 < length source.now.game.vertices }
{
    table.raise(2, &source.value(2));
    holds!(rt; is_as_wanted(&table.value(2), 20));
    holds!(rt; is_as_wanted(&table.value(4), 0));
}

#[test]
fn raises_one_vertex(rt: HostRuntime) {
    let game = nested_binders_game(&rt);
    let source = settled(&rt, &game);
    holds!(&rt; 4 < game.vertices());
    rises(&rt, &mut opened(&rt, &game), &source);
}

// Vertex 4 asks for what it has at least where its play goes on at that measure, which is below another; and it is lifted to it.
#[test]
fn asks_for_the_least(rt: HostRuntime) {
    let (game, want) = (nested_binders_game(&rt), 10);
    let (m, more) = (Measure::of_counts(&[0, 3]), Measure::of_counts(&[1, 3]));
    holds!(&rt; m.is_below(&more) && !more.copied().is_below(&m));
    holds!(&rt; more.is_below(&Measure::top()));
    holds!(&rt; 4 < game.vertices());
    holds!(&rt; is_measure(&game, &m));
    holds!(&rt; is_as_wanted(&prog(&game, 4, &m), want));
    let lifted = lift(&game, 4, &Measure::of_counts(&[0, 0]), &[m]);
    holds!(&rt; is_as_wanted(&lifted, want));
}
