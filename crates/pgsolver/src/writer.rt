// The writer of games.

ghost use Rattle.std.specs.Prelude.{◌≡◌, ◌+◌, ◌*◌, ◌<◌, ◌++◌, [], ℕ, length, Some, codes};
ghost use Rattle.game.specs.Game.{Vertex, vertex};
ghost use Rattle.text.specs.Pieces.{line_end};
ghost use Rattle.pgsolver.specs.Canon.{game_text, game_header_line, front_text, successors_text, name_text, vertex_line, vertex_lines};
ghost use Rattle.text.specs.Wrote.{Wrote};

use game::graph::Game;
use game::player::Player;
use text::sink::Sink;
use text::{Lines, Piece, WriteFault, put, put_lines, put_number, put_pieces};

/// Writes the game as its canonical text: a header with the greatest identifier, and a line for each vertex, ascending, with its
/// successors ascending and with its name where states and nodes name the vertices. It takes no memory.
///
/// # Errors
/// After a fault the writer holds a beginning of the text.
pub fn write_game<W: Sink>(game: &Game, out: &mut W) -> Result<(), WriteFault>
    ensures wrote { Wrote (W.taken out.old) (W.taken out.new) result (game_text game.now) }
{
    put_header(game.vertices().saturating_sub(1), out)?;
    put_vertices(game, out)
}

fn put_header<W: Sink>(greatest: u32, out: &mut W) -> Result<(), WriteFault>
    ensures { Wrote (W.taken out.old) (W.taken out.new) result (game_header_line greatest) }
{
    put_pieces(
        out,
        &[
            Piece::Bytes(b"parity "),
            Piece::Number(u64::from(greatest)),
            Piece::Bytes(b";\n"),
        ],
    )
}

// A line for each vertex.
#[derive(Clone, Copy)]
struct VertexLines<'a> {
    game: &'a Game,
}

impl Lines for VertexLines<'_> {
    ghost use Rattle.std.specs.Prelude.{length};
    ghost use Rattle.pgsolver.specs.Canon.{vertex_line_at};

    ghost count = { λ lines. length lines.game.now.vertices };

    ghost line = { λ lines v. vertex_line_at lines.game.now v };

    fn count(&self) -> usize {
        self.game.vertices() as usize
    }

    fn put_line<W: Sink>(&self, number: usize, writer: &mut W) -> Result<(), WriteFault> {
        self.game.known();
        put_vertex(self.game, number as u32, writer)
    }
}

// Writes a line for each vertex.
fn put_vertices<W: Sink>(game: &Game, out: &mut W) -> Result<(), WriteFault>
    ensures { Wrote (W.taken out.old) (W.taken out.new) result (vertex_lines game.now.named 0 game.now.vertices) }
{
    put_lines(&VertexLines { game }, out)
}

fn put_vertex<W: Sink>(game: &Game, v: u32, out: &mut W) -> Result<(), WriteFault>
    requires { v < length game.now.vertices }
    ensures { (x : Vertex) → vertex game.now v ≡ Some x → Wrote (W.taken out.old) (W.taken out.new) result (vertex_line game.now.named v x) }
{
    game.known();
    let successors = game.successors(v);
    let named = game.named();
    put_front(v, game.priority(v), game.owner(v), out)?;
    put_successors(successors, out)?;
    put_end(named, v, out)
}

fn put_front<W: Sink>(v: u32, priority: u8, owner: Player, out: &mut W) -> Result<(), WriteFault>
    ensures { Wrote (W.taken out.old) (W.taken out.new) result (front_text v (record { owner = owner; priority = priority; successors = [] })) }
{
    let owner: &[u8] = match owner {
        Player::Even => b"0",
        Player::Odd => b"1",
    };
    put_pieces(
        out,
        &[
            Piece::Number(u64::from(v)),
            Piece::Bytes(b" "),
            Piece::Number(u64::from(priority)),
            Piece::Bytes(b" "),
            Piece::Bytes(owner),
            Piece::Bytes(b" "),
        ],
    )
}

// Writes the successors, with a comma between two.
fn put_successors<W: Sink>(successors: &[u32], out: &mut W) -> Result<(), WriteFault>
    ensures { Wrote (W.taken out.old) (W.taken out.new) result (successors_text successors.now) }
{
    let mut before: &[u8] = b"";
    for successor in successors {
        put_number(out, before, *successor)?;
        before = b",";
    }
    Ok(())
}

// Writes the name, if there is one, and the end of the line.
fn put_end<W: Sink>(named: Option<(u32, u32)>, v: u32, out: &mut W) -> Result<(), WriteFault>
    requires { (states nodes : ℕ) → named ≡ Some (states, nodes) → v < 2 + states * nodes }
    ensures { Wrote (W.taken out.old) (W.taken out.new) result (name_text named v ++ (codes ";" ++ line_end)) }
{
    match (named, v) {
        (None, _) => put(out, b";\n"),
        (Some(_), 0) => put(out, b" \"true\";\n"),
        (Some(_), 1) => put(out, b" \"false\";\n"),
        (Some((_, nodes)), _) => put_pieces(
            out,
            &[
                Piece::Bytes(b" \""),
                Piece::Number(u64::from((v - 2) / nodes)),
                Piece::Bytes(b","),
                Piece::Number(u64::from((v - 2) % nodes)),
                Piece::Bytes(b"\";\n"),
            ],
        ),
    }
}
