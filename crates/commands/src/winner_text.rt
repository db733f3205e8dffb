// Who wins each vertex of a game, and the text of it.

ghost use Rattle.std.specs.Prelude.{◌≡◌, length, count_by, IfErr, IfOk};
ghost use Rattle.text.specs.Wrote.{Wrote};
ghost use Rattle.calculus.specs.Meaning.{MarksOf};
ghost use Rattle.evidence.specs.Full.{IsFull};
ghost use Rattle.game.specs.Wins.{Wins};
ghost use Rattle.commands.specs.Winners.{AreWinners, even_or_odd, winners_text as text_of};

use evidence::decide::set_marks;
use evidence::evidence::Evidence;
use game::graph::Game;
use game::player::Player;
use laws::games::{not_both_win, one_wins};
use lts::{Piece, WriteFault, put_pieces};
use requests::error::MuError;
use std::alloc::Global;
use text::batch::{Lines, put_lines};
use text::sink::Sink;

/// Where all that Even wins is marked, and no more, Odd wins the other vertices.
pub(crate) fn are_winners(game: &Game, marks: &[bool])
    requires { MarksOf (length game.now.vertices) marks.now (Wins game.now) }
    ensures { AreWinners game.now marks.now }
{
    game.known();
    not_both_win();
    one_wins();
}

/// A mark for each vertex, true where Even wins it, by evidence of all that Even wins.
///
/// # Errors
/// U4.
pub(crate) fn even_marks(alloc: Global, game: &Game, even: &Evidence) -> Result<Vec<bool>, MuError>
    requires game { even.now.game ≡ game.now }
    requires full { IsFull Player.Even game.now even.now.evidence }
    ensures exact { IfOk result (λ marks. AreWinners game.now marks.items) }
    ensures refusal { IfErr result (λ e. e ≡ MuError.Memory) }
{
    game.known();
    not_both_win();
    one_wins();
    Ok(set_marks(alloc, game, even)?)
}

/// Writes how many vertices there are, how many of them Even wins, and a line for each.
///
/// # Errors
/// After a fault the writer holds a beginning of that.
pub(crate) fn write_winners<W: Sink>(marks: &[bool], out: &mut W) -> Result<(), WriteFault>
    ensures { Wrote (W.taken out.old) (W.taken out.new) result (text_of marks.now) }
{
    put_pieces(
        out,
        &[
            Piece::Bytes(b"vertices "),
            Piece::Number(marks.len() as u64),
            Piece::Bytes(b"\neven "),
            Piece::Number(count_marked(marks) as u64),
            Piece::Bytes(b"\n"),
        ],
    )?;
    put_lines(&WinnerLines { marks }, out)
}

// A line for each mark.
#[derive(Clone, Copy)]
struct WinnerLines<'a> {
    marks: &'a [bool],
}

impl Lines for WinnerLines<'_> {
    ghost use Rattle.std.specs.Prelude.{length};
    ghost use Rattle.commands.specs.Winners.{winner_line_at};

    ghost count = { λ lines. length lines.marks.now };

    ghost line = { λ lines v. winner_line_at lines.marks.now v };

    fn count(&self) -> usize {
        self.marks.len()
    }

    fn put_line<W: Sink>(&self, number: usize, writer: &mut W) -> Result<(), WriteFault> {
        let end = Piece::Bytes(end_of_line(self.marks[number]));
        put_pieces(writer, &[Piece::Number(number as u64), end])
    }
}

/// How many are marked.
fn count_marked(marks: &[bool]) -> usize
    ensures { result ≡ count_by (λ mark. mark) marks.now }
{
    marks.iter().filter(|mark| **mark).count()
}

/// The end of a line that tells who wins.
fn end_of_line(mark: bool) -> &'static [u8]
    ensures { result.now ≡ even_or_odd mark }
{
    if mark { b" even\n" } else { b" odd\n" }
}
