// The evidence of a player by least measures and the moves by them: its text, where no game is stored, and itself where one is.

ghost use Rattle.std.specs.Prelude.{◌≡◌, ◌<◌, ◌≤◌, ℕ, IfOk, IsOkUnless, List, length, slice_index_or};
ghost use Rattle.calculus.specs.declared.limits.TheConstants.{GREATEST_PRIORITY};
ghost use Rattle.evidence.specs.Best.{IsBestOf};
ghost use Rattle.evidence.specs.Canon.{evidence_text};
ghost use Rattle.evidence.specs.Evidence as entries;
ghost use Rattle.game.specs.Game.{Game, greatest};
ghost use Rattle.measures.specs.StoredProposal.{move_said};
ghost use Rattle.text.specs.Wrote.{Wrote};
ghost use Rattle.verdicts.specs.EvidenceText.{AreLeastMeasures};

use evidence::entries::EntryView;
use evidence::error::EvidenceError;
use evidence::evidence::Evidence;
use evidence::writer::{put_entry, put_header};
use game::graph::Game;
use game::player::Player;
use measures::proposal::{NO_MOVE, Proposals};
use std::alloc::Global;
use text::sink::Sink;
use text::{Lines, WriteFault, put_lines};

/// What a player's evidence is written from: the least measures of both players, and for each vertex the move of the one who wins it.
#[derive(Clone, Copy)]
pub struct LeastMeasures<'a> {
    pub proposals: &'a Proposals,
    pub moves: &'a [u32],
    pub player: Player,
}

impl Lines for LeastMeasures<'_> {
    ghost use Rattle.std.specs.Prelude.{length};
    ghost use Rattle.verdicts.specs.EvidenceText.{measured_line};

    ghost count = { λ m. length m.moves.now };

    ghost line = { λ m v. measured_line m v };

    fn count(&self) -> usize {
        self.moves.len()
    }

    fn put_line<W: Sink>(&self, number: usize, writer: &mut W) -> Result<(), WriteFault> {
        let own = self.proposals.value(self.player, number);
        if own.is_top() {
            return Ok(());
        }
        let next = self.next(number);
        let rank = own.counts();
        put_entry(number, EntryView { next, rank }, writer)
    }
}

impl LeastMeasures<'_> {
    // Where the winner goes on from a vertex, if the vertex is the winner's.
    fn next(&self, v: usize) -> Option<u32>
        requires { v < length self.now.moves.now }
        ensures { result ≡ move_said (slice_index_or self.now.moves.now v 0) }
    {
        match self.moves[v] {
            NO_MOVE => None,
            next => Some(next),
        }
    }

    /// The evidence of all that the player wins in the game: the measures of the player's least progress table are the ranks, and the player goes on to the
    /// least of the successors with the least `prog`.
    ///
    /// # Errors
    /// Out of memory, E5, and nothing else.
    pub fn evidence(&self, alloc: Global, game: &Game) -> Result<Evidence, EvidenceError>
        requires least { AreLeastMeasures self.now game.now }
        requires few { greatest game.now ≤ GREATEST_PRIORITY }

        ensures memory { IsOkUnless result EvidenceError.Memory }
        ensures game { IfOk result (λ e. e.game ≡ game.now) }
        ensures best { IfOk result (λ e. IsBestOf self.now.player game.now e.evidence) }
    {
        game.known();
        let mut evidence = Evidence::none(alloc, game, self.player)?;
        for v in 0..game.vertices() {
            let own = self.proposals.value(self.player, v as usize);
            if !own.is_top() {
                evidence.put(v, self.next(v as usize), own.counts());
            }
        }
        Ok(evidence)
    }

    /// Writes the evidence of all that the player wins, by the player's least progress table: its measures are the ranks, and the player goes on to the least of
    /// the successors with the least `prog`. It takes no memory, and few writes.
    ///
    /// # Errors
    /// After a fault the writer holds a beginning of the text.
    pub fn write<W: Sink>(&self, writer: &mut W) -> Result<(), WriteFault>
        ensures { (g : Game) (e : entries.Evidence) → AreLeastMeasures self.now g → IsBestOf self.now.player g e
            → Wrote (W.taken writer.old) (W.taken writer.new) result (evidence_text e) }
    {
        put_header(self.player, writer)?;
        put_lines(self, writer)
    }
}
