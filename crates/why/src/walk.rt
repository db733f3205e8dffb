// The walk along a play.

ghost use Rattle.std.specs.Prelude.{◌≡◌, ◌<◌, ◌≤◌, ◌+◌, ℕ, List, false, true, Some, None, IfOk, IfSome, OnOk, IsTrue, Option, length, slice_set};
ghost use Rattle.systems.specs.System.{System};
ghost use Rattle.calculus.specs.Nodes.{Node};
ghost use Rattle.calculus.specs.Normal.{normal_nodes};
ghost use Rattle.evidence.specs.Evidence.{Evidence as EntrySet, IsGood, has as has_entry};
ghost use Rattle.game.specs.Game.{Game, Vertex, vertex};
ghost use Rattle.witness.specs.Walk.{is_marked as is_marked_in};
ghost use Rattle.why.specs.Telling.{IsTelling, deeper as deeper_of, goes_on as is_told_further};
ghost use Rattle.why.specs.Walk.{AreAll, AreWaysFrom, HasAdded, HasLetWait, HasTold, IsNextKind, IsWalkBy, way_on as way_on_by};

use crate::everywhere::everywhere;
use crate::visit::{Continuation, MOST_BLANKS, Visit, Way};
use calculus::form::Normal;
use evidence::evidence::Evidence;
use game::graph::Game;
use game::player::Player;
use lts::Lts;
use std::alloc::Global;
use text::Memory;

/// The first vertex that is no sink.
const FIRST_PLACE: u32 = 2;

/// How many states and transitions may be looked at for what is so of all reachable states, which takes a second.
const MOST_LOOKS: usize = 40_000_000;

/// What is told so far, with a mark for each vertex from which the play was told further, and what waits to be told.
#[derive(Drop)]
pub struct Walk {
    pub told: Vec<bool>,
    pub visits: Vec<Visit>,
    /// The number of the visit with which the run begins.
    pub start: usize,
    pub waiting: Vec<Way>,
}

/// Where a play can go on from a vertex.
#[derive(Clone, Copy)]
pub enum Ways<'a> {
    One(u32),
    Many(&'a [u32]),
}

/// Tells the play by the evidence from a vertex on, depth first: all of it, or so many visits.
///
/// # Errors
/// Out of memory.
pub fn telling(
    alloc: Global,
    system: &Lts,
    form: &Normal,
    game: &Game,
    evidence: &Evidence,
    root: u32,
    most: usize,
) -> Result<Vec<Visit>, Memory>
    requires same { evidence.now.game ≡ game.now }
    requires good { IsGood game.now evidence.now.evidence }
    requires root { IsTrue (has_entry evidence.now.evidence root) }
    requires some { 0 < most }

    ensures { IfOk result (λ visits. IsTelling system.now.system (normal_nodes form.now) game.now evidence.now.evidence root most visits.items) }
{
    evidence.known();
    let mut walk = Walk {
        told: vec![in alloc; false; game.vertices() as usize]?,
        visits: Vec::new(alloc),
        start: 0,
        waiting: Vec::new(alloc),
    };
    let mut next = Some(Way {
        from: None,
        vertex: root,
        blanks: 0,
    });
    let mut spare = MOST_LOOKS;
    while let Some(way) = next {
        if walk.visits.len() >= most {
            return Ok(walk.visits);
        }
        next = step(
            alloc, system, form, game, evidence, way, &mut walk, &mut spare,
        )?;
    }
    Ok(walk.visits)
}

/// Tells of the vertex to which a way leads. The answer is the way that is told of next, if one is.
fn step(
    alloc: Global,
    system: &Lts,
    form: &Normal,
    game: &Game,
    evidence: &Evidence,
    way: Way,
    walk: &mut Walk,
    spare: &mut usize,
) -> Result<Option<Way>, Memory>
    requires same { evidence.now.game ≡ game.now }
    requires good { IsGood game.now evidence.now.evidence }
    requires walk { (root : ℕ) × IsWalkBy system.now.system (normal_nodes form.now) game.now evidence.now.evidence root walk.old (Some way) }

    ensures told { IfOk result (HasTold system.now.system (normal_nodes form.now) game.now evidence.now.evidence way walk.old walk.new) }
    ensures end { IfOk result (λ next. next ≡ None → length walk.new.waiting.items ≡ 0) }
{
    match tell(alloc, system, form, game, evidence, way, walk, spare)? {
        Some(next) => Ok(Some(next)),
        None => Ok(walk.waiting.pop()),
    }
}

/// Tells of the vertex to which a way leads. The answer is the only way on from there, if the play is told further and has one.
fn tell(
    alloc: Global,
    system: &Lts,
    form: &Normal,
    game: &Game,
    evidence: &Evidence,
    way: Way,
    walk: &mut Walk,
    spare: &mut usize,
) -> Result<Option<Way>, Memory>
    requires same { evidence.now.game ≡ game.now }
    requires good { IsGood game.now evidence.now.evidence }
    requires walk { (root : ℕ) × IsWalkBy system.now.system (normal_nodes form.now) game.now evidence.now.evidence root walk.old (Some way) }
    ensures { IfOk result (HasTold system.now.system (normal_nodes form.now) game.now evidence.now.evidence way walk.old walk.new) }
{
    evidence.known();
    let winner = evidence.player();
    let ways = ways_from(game, evidence, way.vertex);
    match ending(alloc, system, form, winner, way.vertex, ways, walk, spare)? {
        Some(kind) => end(way, kind, walk),
        None => match ways {
            Ways::One(next) => go_on(way, next, walk),
            Ways::Many(targets) => branch(way, targets, walk),
        },
    }
}

/// Why the play isn't told further from a vertex, if it is not: only a sink follows, or it was told before, or what its fixpoint asks is so of all reachable
/// states.
fn ending(
    alloc: Global,
    system: &Lts,
    form: &Normal,
    winner: Player,
    u: u32,
    ways: Ways<'_>,
    walk: &Walk,
    spare: &mut usize,
) -> Result<Option<Continuation>, Memory>
    ensures ends { IfOk result (λ found. IfSome found (λ kind. is_told_further kind ≡ false)) }
    ensures kind { (g : Game) (e : EntrySet) → AreWaysFrom g e u ways.entry
        → IfOk result (λ found. IfSome found (IsNextKind system.now.system (normal_nodes form.now) g e walk.now u)) }
    ensures fresh { IfOk result (λ found. found ≡ None → is_marked_in walk.now.told.items u ≡ false) }
    ensures high { IfOk result (λ found. found ≡ None → (t : ℕ) → ways.entry ≡ Ways.One t → 2 ≤ t) }
{
    match ways {
        Ways::One(next) if next < FIRST_PLACE => Ok(Some(Continuation::Sink)),
        _ if is_marked(&walk.told, u) => Ok(Some(met(u, walk))),
        _ => match everywhere(alloc, system, form, winner, u, spare)? {
            Some(count) => Ok(Some(Continuation::Everywhere(count))),
            None => Ok(None),
        },
    }
}

/// Whether a vertex is marked.
fn is_marked(marks: &[bool], v: u32) -> bool
    ensures { result ≡ is_marked_in marks.now v }
{
    marks.get(v as usize).copied().unwrap_or(false)
}

/// Where the play can go on from a vertex of the evidence.
fn ways_from<'a>(game: &'a Game, evidence: &Evidence, u: u32) -> Ways<'a>
    requires same { evidence.now.game ≡ game.now }
    requires good { IsGood game.now evidence.now.evidence }
    requires has { IsTrue (has_entry evidence.now.evidence u) }
    ensures { AreWaysFrom game.now evidence.now.evidence u result }
{
    game.known();
    evidence.known();
    match evidence.get(u) {
        Some(entry) => match entry.next {
            Some(next) => Ways::One(next),
            None => all_ways(game, u),
        },
        None => unreachable!(),
    }
}

/// Where the play can go on from a vertex from which the evidence has no move.
fn all_ways<'a>(game: &'a Game, u: u32) -> Ways<'a>
    requires { u < length game.now.vertices }
    ensures { (v : Vertex) → vertex game.now u ≡ Some v → AreAll v.successors result }
{
    let successors = game.successors(u);
    if successors.len() == 1 {
        Ways::One(successors[0])
    } else {
        Ways::Many(successors)
    }
}

/// Where the play goes on from a vertex, of which it was told further before.
fn met(u: u32, walk: &Walk) -> Continuation
    requires told { IsTrue (is_marked_in walk.now.told.items u) }
    ensures ends { is_told_further result ≡ false }
    ensures kind { (l : System) (nodes : List Node) (g : Game) (e : EntrySet) → IsNextKind l nodes g e walk.now u result }
{
    for i in walk.start..walk.visits.len() {
        if walk.visits[i].way.vertex == u {
            return Continuation::Back(i);
        }
    }
    Continuation::Told
}

/// Tells that the play isn't told further from a vertex.
fn end(way: Way, kind: Continuation, walk: &mut Walk) -> Result<Option<Way>, Memory>
    ensures none { IfOk result (λ next. next ≡ None) }
    ensures added { IfOk result (λ _. HasAdded way kind walk.old walk.new walk.old.told.items (length walk.old.visits.items + 1)) }
    ensures waiting { IfOk result (λ _. walk.new.waiting.items ≡ walk.old.waiting.items) }
{
    walk.visits.push(Visit { way, kind })?;
    walk.start = walk.visits.len();
    Ok(None)
}

/// Tells that the play has one way on from a vertex.
fn go_on(way: Way, target: u32, walk: &mut Walk) -> Result<Option<Way>, Memory>
    requires { way.vertex < length walk.old.told.items }
    ensures next { IfOk result (λ next. next ≡ Some (way_on_by way way.blanks target)) }
    ensures added { IfOk result (λ _. HasAdded way Continuation.On walk.old walk.new (slice_set walk.old.told.items way.vertex true) walk.old.start) }
    ensures waiting { IfOk result (λ _. walk.new.waiting.items ≡ walk.old.waiting.items) }
{
    walk.told[way.vertex as usize] = true;
    let kind = Continuation::On;
    walk.visits.push(Visit { way, kind })?;
    Ok(Some(Way {
        from: Some(way.vertex),
        vertex: target,
        blanks: way.blanks,
    }))
}

/// Tells that the play has several ways on from a vertex. They wait.
fn branch(way: Way, targets: &[u32], walk: &mut Walk) -> Result<Option<Way>, Memory>
    requires { way.vertex < length walk.old.told.items }
    ensures none { IfOk result (λ next. next ≡ None) }
    ensures added { IfOk result (λ _. HasAdded way Continuation.Branch walk.old walk.new (slice_set walk.old.told.items way.vertex true) (length walk.old.visits.items + 1)) }
    ensures waiting { IfOk result (λ _. HasLetWait way targets.now walk.old.waiting.items walk.new.waiting.items) }
{
    walk.told[way.vertex as usize] = true;
    let kind = Continuation::Branch;
    walk.visits.push(Visit { way, kind })?;
    walk.start = walk.visits.len();
    let_wait(way, targets, &mut walk.waiting)?;
    Ok(None)
}

/// Lets the ways to these vertices wait, the first of them last.
fn let_wait(way: Way, targets: &[u32], waiting: &mut Vec<Way>) -> Result<(), Memory>
    ensures { OnOk result (HasLetWait way targets.now waiting.old.items waiting.new.items) }
{
    let blanks = deeper(way.blanks);
    for k in 0..targets.len() {
        waiting.push(Way {
            from: Some(way.vertex),
            vertex: targets[targets.len() - 1 - k],
            blanks,
        })?;
    }
    Ok(())
}

/// Two blanks more, or as many as a line begins with at most.
fn deeper(blanks: usize) -> usize
    ensures { result ≡ deeper_of blanks }
{
    if blanks < MOST_BLANKS {
        blanks + 2
    } else {
        blanks
    }
}
