// Games that are solved as a request asks: by named boards, and with evidence beside the winners. tests/commands has the built program write evidence of
// that game and of others, and say of both pieces that they are accepted together.

ghost use Rattle.std.specs.Prelude.{◌<◌};

use crate::common::{is_unwritten, is_written};
use calculus::priorities::Priorities;
use commands::solve_text::solve_asked;
use game::observer::{Observer, Silent};
use requests::error::MuError;
use requests::request::{BoardKind, Options, Solve};
use samples::holds;
use samples::host::Host;
use samples::lifters::Lifters;
use samples::ring_games::{EVEN_OF_STEP, ODD_OF_STEP, OFTEN_A, STEP};
use samples::writers::{AMPLE, Narrow};
use std::alloc::Global;
use std::process::Abort;

/// A request to one worker or to two over this board.
fn request(board: BoardKind, are_two: bool, evidence: Option<&'static str>) -> Solve<'static> {
    Solve {
        game: "g",
        options: Options {
            priorities: Priorities::Nested,
            workers: if are_two { 2 } else { 1 },
            shards: 16,
            board,
        },
        evidence,
        stats: false,
    }
}

/// What is written of a game: Even's evidence, Odd's, and the winners.
#[derive(Drop)]
struct SolvedTexts {
    even: Narrow,
    odd: Narrow,
    winners: Narrow,
}

impl SolvedTexts {
    /// Nothing yet, with room for so many bytes of each text.
    fn new(alloc: Global, rooms: [usize; 3]) -> SolvedTexts {
        let [even, odd, winners] = rooms;
        SolvedTexts {
            even: Narrow::new(alloc, 7, even),
            odd: Narrow::new(alloc, 7, odd),
            winners: Narrow::new(alloc, 7, winners),
        }
    }

    /// How much was written of each text.
    fn lengths(&self) -> [usize; 3] {
        let (even, odd) = (self.even.taken.len(), self.odd.taken.len());
        [even, odd, self.winners.taken.len()]
    }

    /// Solves the game, and writes all.
    fn solve<O: Observer + Sync>(
        &mut self,
        rt: &impl Host,
        request: &Solve<'_>,
        game: &str,
        observer: &O,
    ) -> Result<bool, MuError> {
        solve_asked(
            rt,
            rt.alloc(),
            request,
            game.as_bytes(),
            &mut self.even,
            &mut self.odd,
            &mut self.winners,
            observer,
        )
    }
}

/// The workers of this request do all of the lifting, and nothing is searched for. In the game that was worked out by hand four measures rise.
fn do_all(rt: &impl Host, request: &Solve<'_>) {
    let lifters = Lifters::new();
    let mut texts = SolvedTexts::new(rt.alloc(), [AMPLE; 3]);
    let answer = texts.solve(rt, request, OFTEN_A, &lifters);
    holds!(rt; matches!(answer, Ok(true)), "it is solved");
    let workers = u64::from(request.options.workers);
    holds!(rt; lifters.did_all(workers), "the workers do it");
}

/// Workers do over this board, one and two, with evidence and without.
fn any_do_all(rt: &impl Host, board: BoardKind) {
    do_all(rt, &request(board, false, None));
    do_all(rt, &request(board, true, None));
    do_all(rt, &request(board, false, Some("e")));
    do_all(rt, &request(board, true, Some("e")));
}

#[test]
fn workers_solve_over_shards(rt: HostRuntime) {
    any_do_all(&rt, BoardKind::Locked)
}

#[test]
fn workers_solve_over_words(rt: HostRuntime) {
    any_do_all(&rt, BoardKind::Packed)
}

/// Solves the game of a step, of whose texts each has so much room.
fn solved_step(rt: &impl Host, rooms: [usize; 3]) -> (SolvedTexts, Result<bool, MuError>) {
    let request = request(BoardKind::Auto, false, Some("e"));
    let mut texts = SolvedTexts::new(rt.alloc(), rooms);
    let answer = texts.solve(rt, &request, STEP, &Silent);
    (texts, answer)
}

/// Where each vertex has one move, and no rank has to count more than one vertex, evidence is that which was worked out.
#[test]
fn evidence_is_written_beside_the_winners(rt: HostRuntime) {
    let (texts, answer) = solved_step(&rt, [AMPLE; 3]);
    holds!(&rt; matches!(answer, Ok(true)), STEP);
    is_written(&rt, EVEN_OF_STEP, &texts.even);
    is_written(&rt, ODD_OF_STEP, &texts.odd);
    let winners = "vertices 6\neven 4\n0 even\n1 odd\n2 even\n3 even\n4 odd\n5 even\n";
    is_written(&rt, winners, &texts.winners);
}

/// The text at this place is cut behind nine bytes, those before it are longer, and those after it shorter.
fn are_cut_at(rt: &impl Abort, lengths: [usize; 3], at: usize)
    requires { at < 3 }
{
    assert!(rt; lengths[at] == 9);
    for text in 0..3 {
        assert!(rt; text == at || (lengths[text] > 9) == (text < at));
    }
}

/// A text that isn't written whole stops the others: those before it are whole, and those after it empty.
#[test]
fn texts_are_written_one_after_another(rt: HostRuntime) {
    for at in 0..3 {
        let mut rooms = [AMPLE; 3];
        rooms[at] = 9;
        let (texts, answer) = solved_step(&rt, rooms);
        holds!(&rt; is_unwritten(&answer), STEP);
        are_cut_at(&rt, texts.lengths(), at);
    }
}
