// Whether proposals are the least progress tables of both players in an arena that isn't stored, and where the winners go on then.

ghost use Rattle.std.specs.Prelude.{◌≡◌, ◌+◌, ◌*◌, ◌<◌, ◌≤◌, ◌==◌, IfOk, IfSome, IsTrue, List, Some, count_by, length, max};
ghost use Rattle.std.specs.List.{AllByRecursion};
ghost use Rattle.systems.specs.System.{System};
ghost use Rattle.calculus.specs.Nodes.{Node, greatest_node_priority};
ghost use Rattle.calculus.specs.Normal.{normal_nodes};
ghost use Rattle.game.specs.declared.limits.TheConstants.{MOST_VERTICES};
ghost use Rattle.game.specs.declared.player.Player.TheVariants.{Even, Odd};
ghost use Rattle.game.specs.Arena.{arena, place};
ghost use Rattle.game.specs.Game.{Game, dual, vertex as vertex_at};
ghost use Rattle.game.specs.Lent.{lent_vertex};
ghost use Rattle.measures.specs.Progress.{IsLeastTable};
ghost use Rattle.measures.specs.StoredProposal.{AreBoundsIn, game_for, values_of};
ghost use Rattle.rankings.specs.Least.{AreTestedTo, AreWinnersMoves, IsLeastTest, IsTestedAt, risen_of};

use arrayvec::ArrayVec;
use calculus::form::Normal;
use calculus::label_sets::label_sets;
use game::build::{by_target, vertex_in};
use game::limits::MOST_VERTICES;
use game::player::Player;
use game::view::VertexView;
use measures::proposal::Proposals;
use std::alloc::{AllocError, Global};
use systems::system::{Lts, Transition};

/// How far the counts of both players' measures go in an arena.
#[derive(Drop)]
struct ArenaBounds {
    even: ArrayVec<u32, 16>,
    odd: ArrayVec<u32, 16>,
}

/// Proposals for the arena of a system and a normal form, with the labels that modalities take.
#[derive(Clone, Copy)]
struct LeastTest<'a> {
    lts: &'a Lts,
    form: &'a Normal,
    sets: &'a [Vec<bool>],
    proposals: &'a Proposals,
    bounds: &'a ArenaBounds,
}

// How many nodes have this priority.
fn nodes_with(form: &Normal, priority: u32) -> u32
    ensures { result ≡ count_by (λ (node : Node). node.priority == priority) (normal_nodes form.now) }
{
    form.known();
    let mut count = 0;
    for number in 0..form.count() {
        if form.node(number).priority == priority {
            count += 1;
        }
    }
    count
}

// The greatest priority of an arena: the false sink has 1.
fn greatest(form: &Normal) -> u32
    ensures { result ≡ max 1 (greatest_node_priority (normal_nodes form.now)) }
{
    form.known();
    let mut greatest = 1;
    for number in 0..form.count() {
        greatest = form.node(number).priority.max(greatest);
    }
    greatest
}

// How much greater priorities are in a player's game.
fn risen(player: Player) -> u32
    ensures value { result ≡ risen_of player }
    ensures few { result ≤ 1 }
{
    match player {
        Player::Even => 0,
        Player::Odd => 1,
    }
}

// For each component of a player's game a number that no count may pass: that of the states with a node of its priority.
fn bounds_for(form: &Normal, states: u32, player: Player) -> ArrayVec<u32, 16>
    requires some { 1 ≤ states }
    requires few { 2 + states * length (normal_nodes form.now) ≤ MOST_VERTICES }
    ensures { (l : System) → l.states ≡ states → AreBoundsIn (game_for player (arena l (normal_nodes form.now))) result.items }
{
    form.known();
    let risen = risen(player);
    let mut bounds = ArrayVec::new();
    for p in (0..greatest(form) + risen).rev() {
        if p % 2 == 0 {
            bounds.push(states * nodes_with(form, p + 1 - risen));
        }
    }
    bounds
}

// The winner's move at a vertex, if what is proposed there for both players is good.
fn good_move(
    proposals: &Proposals,
    bounds: &ArenaBounds,
    v: u32,
    vertex: VertexView<'_>,
) -> Option<u32>
    requires vertex { v < proposals.now.vertices }
    requires inside { AllByRecursion (λ t. t < proposals.now.vertices) vertex.successors.now }
    requires few { vertex.priority < 255 }
    ensures { IfSome result (λ next. (g : Game) → vertex_at g v ≡ Some (lent_vertex vertex.entry) → AreBoundsIn g bounds.now.even.items
        → AreBoundsIn (dual g) bounds.now.odd.items → IsTestedAt proposals.now g v next) }
{
    let turned = vertex.turned();
    let even = proposals.good_move(Player::Even, bounds.even.as_slice(), v, vertex)?;
    let odd = proposals.good_move(Player::Odd, bounds.odd.as_slice(), v, turned)?;
    match proposals.winner(v) {
        Player::Even => Some(even),
        Player::Odd => Some(odd),
    }
}

impl LeastTest<'_> {
    // Tests the sinks, and adds their moves.
    fn test_sinks(&self, moves: &mut Vec<u32>) -> Result<bool, AllocError>
        requires known { IsLeastTest self.now }
        requires none { AreTestedTo self.now moves.old.items 0 }
        ensures { IfOk result (λ good. IsTrue good → AreTestedTo self.now moves.new.items 2) }
    {
        for sink in 0..2 {
            let vertex = VertexView {
                owner: Player::Even,
                priority: sink as u8,
                successors: &[sink],
            };
            match good_move(self.proposals, self.bounds, sink, vertex) {
                Some(next) => moves.push(next)?,
                None => return Ok(false),
            }
        }
        Ok(true)
    }

    // Tests the vertices of a state, and adds their moves. Both other lists are lent for rows.
    fn test_state(
        &self,
        state: u32,
        row: &mut Vec<Transition>,
        reached: &mut Vec<u32>,
        moves: &mut Vec<u32>,
    ) -> Result<bool, AllocError>
        requires known { IsLeastTest self.now }
        requires state { state < self.now.lts.now.system.states }
        requires before { AreTestedTo self.now moves.old.items (place (length (normal_nodes self.now.form.now)) state 0) }
        ensures { IfOk result (λ good. IsTrue good → AreTestedTo self.now moves.new.items (place (length (normal_nodes self.now.form.now)) (state + 1) 0)) }
    {
        self.form.known();
        // For the proof: the clauses of this call say what the system has.
        let _states = self.lts.states();
        by_target(row, self.lts, state)?;
        let nodes = self.form.count();
        for number in 0..nodes {
            let set = self.sets[number as usize].as_slice();
            let node = self.form.node(number);
            let vertex = vertex_in(reached, row, set, nodes, state, node)?;
            let v = 2 + (state * nodes + number);
            match good_move(self.proposals, self.bounds, v, vertex) {
                Some(next) => moves.push(next)?,
                None => return Ok(false),
            }
        }
        Ok(true)
    }

    // The moves of all vertices, if all that is proposed is good.
    fn test_all(&self, alloc: Global) -> Result<Option<Vec<u32>>, AllocError>
        requires { IsLeastTest self.now }
        ensures { IfOk result (λ found. IfSome found (λ moves. AreTestedTo self.now moves.items self.now.proposals.now.vertices)) }
    {
        let mut row = Vec::new(alloc);
        let mut reached = Vec::new(alloc);
        let mut moves = Vec::with_capacity(alloc, self.proposals.vertices as usize)?;
        if !self.test_sinks(&mut moves)? {
            return Ok(None);
        }
        for state in 0..self.lts.states() {
            if !self.test_state(state, &mut row, &mut reached, &mut moves)? {
                return Ok(None);
            }
        }
        Ok(Some(moves))
    }
}

// The winners' moves, if all that is proposed is good.
fn tested_moves(
    alloc: Global,
    lts: &Lts,
    form: &Normal,
    proposals: &Proposals,
) -> Result<Option<Vec<u32>>, AllocError>
    requires few { 2 + lts.now.system.states * length (normal_nodes form.now) ≤ MOST_VERTICES }
    requires long { proposals.now.vertices ≡ 2 + lts.now.system.states * length (normal_nodes form.now) }

    ensures even { IfOk result (λ found. IfSome found (λ _. IsLeastTable (arena lts.now.system (normal_nodes form.now)) (values_of Even proposals.now))) }
    ensures odd { IfOk result (λ found. IfSome found (λ _. IsLeastTable (dual (arena lts.now.system (normal_nodes form.now))) (values_of Odd proposals.now))) }
    ensures moves { IfOk result (λ found. IfSome found (λ moves. AreWinnersMoves proposals.now (arena lts.now.system (normal_nodes form.now)) moves.items)) }
{
    form.known();
    let states = lts.states();
    let bounds = ArenaBounds {
        even: bounds_for(form, states, Player::Even),
        odd: bounds_for(form, states, Player::Odd),
    };
    let sets = label_sets(alloc, lts, form)?;
    let test = LeastTest {
        lts,
        form,
        sets: &sets,
        proposals,
        bounds: &bounds,
    };
    if proposals.even.is_rising() && proposals.odd.is_rising() {
        test.test_all(alloc)
    } else {
        Ok(None)
    }
}

/// The winners' moves, if proposals are the least progress tables of both players in the arena of a system and a normal form, which isn't stored: Even's of
/// the arena, and Odd's of its dual. There are none, too, where the arena has too many vertices for a game, and where memory runs out. Each vertex is looked at
/// once.
pub fn least_moves(
    alloc: Global,
    lts: &Lts,
    form: &Normal,
    proposals: &Proposals,
) -> Option<Vec<u32>>
    ensures few { IfSome result (λ _. 2 + lts.now.system.states * length (normal_nodes form.now) ≤ MOST_VERTICES) }

    ensures even { IfSome result (λ _. IsLeastTable (arena lts.now.system (normal_nodes form.now)) (values_of Even proposals.now)) }
    ensures odd { IfSome result (λ _. IsLeastTable (dual (arena lts.now.system (normal_nodes form.now))) (values_of Odd proposals.now)) }
    ensures moves { IfSome result (λ moves. AreWinnersMoves proposals.now (arena lts.now.system (normal_nodes form.now)) moves.items) }
{
    form.known();
    let vertices = 2 + u64::from(lts.states()) * u64::from(form.count());
    if vertices <= MOST_VERTICES as u64 && u64::from(proposals.vertices) == vertices {
        tested_moves(alloc, lts, form, proposals).unwrap_or(None)
    } else {
        None
    }
}
