// Evidence that a player wins a set of vertices.

ghost use Rattle.std.specs.Prelude.{◌≡◌, ◌<◌, ◌≤◌, None, Some, IfOk, IfSome, MatchOption, count_by, length};
ghost use Rattle.std.specs.Option.{is_some};
ghost use Rattle.evidence.specs.Evidence.{IsEvidence, counted, entry_at, has as has_entry};
ghost use Rattle.evidence.specs.View.{empty, rank_width, with_entry};

use crate::entries::{Entries, EntryView, MOST_COUNTS};
use game::dual::greatest_priority;
use game::graph::Game;
use game::player::Player;
use std::alloc::Global;
use std::marker::Model;
use std::snapshot::Snapshot;
use text::Memory;

/// Why a player wins the vertices of a set: for each of them where its owner goes on, if that is the player, and a rank
/// that bounds how often the play meets priorities of the opponent (Jurdziński 2000). Whether it is good is for the checker to say.
#[derive(Drop)]
pub struct Evidence {
    player: Player,
    entries: Entries,
    of: Snapshot<Game>,
}

impl Model for Evidence {
    ghost use Rattle.std.specs.Prelude.{◌≡◌, length};
    ghost use Rattle.evidence.specs.Evidence.{IsEvidence, counted};
    ghost use Rattle.evidence.specs.View.{NamedEvidence};

    ghost Value = { NamedEvidence };

    ghost view = { λ e. record { game = e.of.value; evidence = record { player = e.player; entries = e.entries.entries } } };

    ghost invariant = { λ e. IsEvidence e.of.value (record { player = e.player; entries = e.entries.entries })
        × (e.entries.width ≡ length (counted e.player e.of.value)) };
}

// How many counts a rank of the player's has.
pub(crate) fn width(player: Player, game: &Game) -> usize
    ensures width { result ≡ length (counted player game.now) }
    ensures few { result ≤ MOST_COUNTS }
{
    game.known();
    let greatest = greatest_priority(game) as usize;
    match player {
        Player::Even => (greatest + 1) / 2,
        Player::Odd => greatest / 2 + 1,
    }
}

impl Evidence {
    /// That the player wins nothing yet, with all memory that entries will need.
    ///
    /// # Errors
    /// Out of memory, and nothing else.
    pub fn none(alloc: Global, game: &Game, player: Player) -> Result<Self, Memory>
        ensures { IfOk result (λ e. e ≡ empty game.now player) }
    {
        game.known();
        Ok(Evidence {
            player,
            entries: Entries::none(alloc, game.vertices() as usize, width(player, game))?,
            of: Snapshot::of(game),
        })
    }

    /// What holds of all evidence.
    pub fn known(&self)
        ensures { IsEvidence self.now.game self.now.evidence }
    {
        // For the proof: reading a field makes the invariant known.
        let _ = &self.entries;
    }

    // An entry or none for each vertex of the game.
    pub(crate) fn entries(&self) -> &Entries
        ensures { result.now.entries ≡ self.now.evidence.entries }
    {
        &self.entries
    }

    /// Who wins.
    pub fn player(&self) -> Player
        ensures { result ≡ self.now.evidence.player }
    {
        self.player
    }

    /// How many counts each rank has.
    pub fn width(&self) -> usize
        ensures { result ≡ rank_width self.now }
    {
        self.entries.width()
    }

    /// How many vertices are in the set. It looks at each vertex of the game.
    pub fn len(&self) -> usize
        ensures { result ≡ count_by is_some self.now.evidence.entries }
    {
        let mut count = 0;
        for v in 0..self.entries.len() {
            if self.entries.get(v).is_some() {
                count += 1;
            }
        }
        count
    }

    /// What a vertex has, if it is in the set.
    pub fn get(&self, v: u32) -> Option<EntryView<'_>>
        requires { v < length self.now.game.vertices }
        ensures { MatchOption result (entry_at self.now.evidence v ≡ None)
            (λ x. entry_at self.now.evidence v ≡ Some record { move = x.next; rank = x.rank.now }) }
    {
        self.entries.get(v as usize)
    }

    /// Whether a vertex is in the set.
    pub fn has(&self, v: u32) -> bool
        requires { v < length self.now.game.vertices }
        ensures { result ≡ has_entry self.now.evidence v }
    {
        self.get(v).is_some()
    }

    /// Puts a vertex into the set, with the player's move there and a rank.
    pub fn put(&mut self, v: u32, next: Option<u32>, rank: &[u32])
        requires vertex { v < length self.old.game.vertices }
        requires next { IfSome next (λ t. t < length self.old.game.vertices) }
        requires rank { length rank.now ≡ rank_width self.old }
        ensures { self.new ≡ with_entry self.old v (record { move = next; rank = rank.now }) }
    {
        self.entries.set(v as usize, next, rank);
    }
}
