// Proposals of the least progress tables of both players, which one pass over the vertices tests.

ghost use Rattle.std.specs.Prelude.{◌≡◌, ◌<◌, ◌≤◌, ◌↔◌, ℕ, suc, Contains, IfSome, IsTrue, Some, length};
ghost use Rattle.std.specs.List.{AllByRecursion};
ghost use Rattle.game.specs.Game.{Game, vertex as vertex_at};
ghost use Rattle.game.specs.Lent.{lent_vertex};
ghost use Rattle.measures.specs.Measure.{components};
ghost use Rattle.measures.specs.Progress.{IsLeastTable, value_at};
ghost use Rattle.measures.specs.Proposal.{AreEnough, HasReasonsFor, HeightFalls, IsFirstOf, IsGoodVertex, IsFirstMove, IsFirstMoveBy, IsReason, ReachesFrom};
ghost use Rattle.measures.specs.StoredProposal.{AreBoundsIn, IsProposedAt, height_in, layout_of, proposal_in, shift_in, value_of, value_said, values_of, winner_at, winner_of};

use crate::field::CountField;
use crate::measure::{COMPONENTS, Measure};
use crate::value::ProposedValue;
use arrayvec::ArrayVec;
use game::player::Player;
use game::view::VertexView;
use std::cmp::Ordering;

/// How many priorities have a shift.
pub const SHIFTS: usize = 33;

/// What stands in the place of a move where the opponent moves.
pub const NO_MOVE: u32 = u32::MAX;

// The greatest shift, which is that of all priorities past those.
const LAST_SHIFT: u32 = 63;

/// How a player's counts and heights are read: a field for each count, that of the greatest priority first, and for each priority how many of the lowest
/// bits of heights don't count there.
#[derive(Drop)]
pub struct PlayerLayout {
    pub fields: ArrayVec<CountField, 16>,
    pub shifts: [u32; SHIFTS],
}

/// For each of so many vertices of a game a row: a number, whose lowest bit says that Odd wins, and whose fields have what the winner counts; and so many
/// heights. What is counted of a vertex that Odd wins is its measure in the dual game. Nothing of it is tested.
#[derive(Drop)]
pub struct Proposals {
    pub vertices: u32,
    pub width: u32,
    pub rows: Vec<u64>,
    pub even: PlayerLayout,
    pub odd: PlayerLayout,
}

/// A vertex of a player's game of so many components, with the value that is proposed for it.
#[derive(Clone, Copy)]
struct ProposedVertex<'a> {
    player: Player,
    width: usize,
    v: u32,
    priority: u8,
    shift: u32,
    own: ProposedValue<'a>,
}

// The player that a number says wins.
#[inline(always)]
fn winner(number: u64) -> Player
    ensures { result ≡ winner_of number }
{
    if number % 2 == 1 {
        Player::Odd
    } else {
        Player::Even
    }
}

impl PlayerLayout {
    // How many of the lowest bits of heights don't count at a priority.
    #[inline(always)]
    fn shift(&self, priority: usize) -> u32
        ensures { result ≡ shift_in self.now priority }
    {
        let shift = self.shifts.get(priority).copied();
        shift.unwrap_or(LAST_SHIFT).min(LAST_SHIFT)
    }

    /// Whether shifts don't fall.
    pub fn is_rising(&self) -> bool
        ensures { IsTrue result → (p : ℕ) → shift_in self.now p ≤ shift_in self.now (suc p) }
    {
        let shifts: &[u32] = &self.shifts;
        for p in 0..shifts.len() {
            if self.shift(p) > self.shift(p + 1) {
                return false;
            }
        }
        true
    }
}

impl Proposals {
    fn layout(&self, player: Player) -> &PlayerLayout
        ensures { result.now ≡ layout_of player self.now }
    {
        match player {
            Player::Even => &self.even,
            Player::Odd => &self.odd,
        }
    }

    // A number of a vertex's row.
    #[inline(always)]
    fn height(&self, digit: usize, v: u32) -> u64
        requires { digit ≤ COMPONENTS }
        ensures { result ≡ height_in self.now digit v }
    {
        let first = v as usize * (self.width as usize + 1);
        self.rows.get(first + digit).copied().unwrap_or(0)
    }

    /// Who is said to win a vertex.
    pub fn winner(&self, v: u32) -> Player
        ensures { result ≡ winner_at self.now v }
    {
        winner(self.height(0, v))
    }

    // What a number says of a player's value.
    #[inline(always)]
    fn said(&self, player: Player, number: u64) -> ProposedValue<'_>
        ensures value { value_said result ≡ value_of player (layout_of player self.now) number }
        ensures layout { result.layout.now ≡ layout_of player self.now }
    {
        ProposedValue {
            layout: self.layout(player),
            number,
            is_top: winner(number) != player,
        }
    }

    // The value that is proposed for a player at a vertex.
    #[inline(always)]
    #[tactic(auto, using(crate::proofs::StoredProposals::value_there))]
    fn proposed(&self, player: Player, v: u32) -> ProposedValue<'_>
        requires { v < self.now.vertices }
        ensures value { value_said result ≡ value_at (values_of player self.now) v }
        ensures layout { result.layout.now ≡ layout_of player self.now }
    {
        self.said(player, self.height(0, v))
    }

    /// The value that is proposed for a player at a vertex, and top where there is no such vertex.
    #[inline(always)]
    #[tactic(auto, using(crate::proofs::StoredProposals::value_past))]
    pub fn value(&self, player: Player, v: usize) -> Measure
        ensures { result ≡ value_at (values_of player self.now) v }
    {
        if v < self.vertices as usize {
            self.proposed(player, v as u32).measure()
        } else {
            Measure::top()
        }
    }

    // Whether what counts of the height falls along an edge, or stays where it may.
    #[inline(always)]
    fn falls(&self, at: &ProposedVertex<'_>, digit: usize, next: u32) -> bool
        requires known { IsProposedAt self.now at.now }
        requires digit { digit ≤ COMPONENTS }
        ensures { (g : Game) → IsTrue result ↔ HeightFalls (proposal_in at.now.player self.now g) digit at.now.priority at.now.v next }
    {
        let own = self.height(digit, at.v) >> at.shift;
        let other = self.height(digit, next) >> at.shift;
        other < own || (other == own && at.priority % 2 == 1)
    }

    // Whether an edge is a reason for what the value of a vertex has at a digit.
    #[tactic(auto, unfolding(crate::specs::Proposal::IsReason))]
    fn is_reason(&self, at: &ProposedVertex<'_>, digit: usize, next: u32) -> bool
        requires known { IsProposedAt self.now at.now }
        requires digit { digit ≤ at.now.width }
        requires next { next < self.now.vertices }

        ensures { (g : Game) → length (components g) ≡ at.now.width
            → IsTrue result → IsReason (proposal_in at.now.player self.now g) digit at.now.priority at.now.v next }
    {
        let other = self.proposed(at.player, next);
        let counted_at = 2 * (at.width - digit) + 1;
        match (at.priority as usize).cmp(&counted_at) {
            Ordering::Less => match at.own.compare_first(other, digit) {
                Ordering::Less => true,
                Ordering::Equal => self.falls(at, digit, next),
                Ordering::Greater => false,
            },
            Ordering::Equal => at.own.has_all_but_one(other, digit),
            Ordering::Greater => false,
        }
    }

    // Whether the value of a vertex reaches that of the next one.
    #[inline(always)]
    fn reaches(&self, at: &ProposedVertex<'_>, next: u32) -> bool
        requires known { IsProposedAt self.now at.now }
        requires next { next < self.now.vertices }
        ensures { (g : Game) → length (components g) ≡ at.now.width → (IsTrue result ↔ ReachesFrom g (values_of at.now.player self.now) at.now.priority at.now.v next) }
    {
        let other = self.proposed(at.player, next);
        at.own.reaches(other, at.priority, at.width)
    }

    // The first successor that the value of a vertex reaches.
    fn first_reached(&self, at: &ProposedVertex<'_>, successors: &[u32]) -> Option<u32>
        requires known { IsProposedAt self.now at.now }
        requires inside { AllByRecursion (λ t. t < self.now.vertices) successors.now }
        ensures { IfSome result (λ next. (g : Game) → length (components g) ≡ at.now.width
            → IsFirstOf (ReachesFrom g (values_of at.now.player self.now) at.now.priority at.now.v) successors.now next) }
    {
        for next in successors {
            if self.reaches(at, *next) {
                return Some(*next);
            }
        }
        None
    }

    // Whether the value of a vertex reaches all successors.
    fn reaches_all(&self, at: &ProposedVertex<'_>, successors: &[u32]) -> bool
        requires known { IsProposedAt self.now at.now }
        requires inside { AllByRecursion (λ t. t < self.now.vertices) successors.now }
        ensures { (g : Game) → length (components g) ≡ at.now.width
            → IsTrue result → (t : ℕ) → Contains successors.now t → ReachesFrom g (values_of at.now.player self.now) at.now.priority at.now.v t }
    {
        for next in successors {
            if !self.reaches(at, *next) {
                return false;
            }
        }
        true
    }

    // The move of a vertex of this owner, if its value reaches enough: the first successor that it reaches where the player chooses.
    fn move_of(&self, at: &ProposedVertex<'_>, owner: Player, successors: &[u32]) -> Option<u32>
        requires known { IsProposedAt self.now at.now }
        requires inside { AllByRecursion (λ t. t < self.now.vertices) successors.now }
        ensures { IfSome result (λ next. (g : Game) → length (components g) ≡ at.now.width
            → IsFirstMoveBy owner (ReachesFrom g (values_of at.now.player self.now) at.now.priority at.now.v) successors.now next) }
    {
        match owner {
            Player::Even => self.first_reached(at, successors),
            Player::Odd if self.reaches_all(at, successors) => Some(NO_MOVE),
            Player::Odd => None,
        }
    }

    // Whether all of these edges are reasons for what the value of a vertex has at a digit, or one of them is, as this player would have it.
    fn are_enough(
        &self,
        at: &ProposedVertex<'_>,
        digit: usize,
        asker: Player,
        successors: &[u32],
    ) -> bool
        requires known { IsProposedAt self.now at.now }
        requires digit { digit ≤ at.now.width }
        requires inside { AllByRecursion (λ t. t < self.now.vertices) successors.now }

        ensures { (g : Game) → length (components g) ≡ at.now.width
            → IsTrue result → AreEnough asker (IsReason (proposal_in at.now.player self.now g) digit at.now.priority at.now.v) successors.now }
    {
        let one_is_enough = asker == Player::Odd;
        for t in successors {
            if self.is_reason(at, digit, *t) == one_is_enough {
                return one_is_enough;
            }
        }
        !one_is_enough
    }

    // Whether the value of a vertex of this owner has its reasons.
    fn has_reasons(&self, at: &ProposedVertex<'_>, owner: Player, successors: &[u32]) -> bool
        requires known { IsProposedAt self.now at.now }
        requires inside { AllByRecursion (λ t. t < self.now.vertices) successors.now }

        ensures { (g : Game) → vertex_at g at.now.v ≡ Some record { owner = owner; priority = at.now.priority; successors = successors.now }
            → length (components g) ≡ at.now.width
            → IsTrue result → (digit : ℕ) → digit ≤ at.now.width → HasReasonsFor (proposal_in at.now.player self.now g) digit at.now.v }
    {
        for digit in 0..=at.width {
            if at.own.digit(digit) != 0 && !self.are_enough(at, digit, owner, successors) {
                return false;
            }
        }
        true
    }

    /// The player's move at a vertex of the player's game, whose counts have these bounds, if the value that is proposed there is good: the first successor
    /// that it reaches where the player chooses, and `NO_MOVE` where the opponent does.
    pub fn good_move(
        &self,
        player: Player,
        bounds: &[u32],
        v: u32,
        vertex: VertexView<'_>,
    ) -> Option<u32>
        requires vertex { v < self.now.vertices }
        requires inside { AllByRecursion (λ t. t < self.now.vertices) vertex.successors.now }
        ensures good { IfSome result (λ _. (g : Game) → vertex_at g v ≡ Some (lent_vertex vertex.entry) → AreBoundsIn g bounds.now
            → IsGoodVertex (proposal_in player self.now g) v) }
        ensures next { IfSome result (λ next. (g : Game) → vertex_at g v ≡ Some (lent_vertex vertex.entry) → AreBoundsIn g bounds.now
            → IsFirstMove g (values_of player self.now) v next) }
    {
        let own = self.proposed(player, v);
        let width = bounds.len();
        if width > COMPONENTS || !own.is_within(bounds) {
            return None;
        }
        let at = ProposedVertex {
            player,
            width,
            v,
            priority: vertex.priority,
            shift: own.layout.shift(vertex.priority as usize),
            own,
        };
        let VertexView {
            owner,
            successors,
            ..
        } = vertex;
        let next = self.move_of(&at, owner, successors)?;
        if self.has_reasons(&at, owner, successors) {
            Some(next)
        } else {
            None
        }
    }
}
