// Who wins the vertices of an arena that isn't stored, by rankings that are tested state by state.
#![tactic(auto)]

ghost use Rattle.rankings.specs.Laws.{RankingDecides};

mod column;
pub mod least;
mod nodes;
mod numbers;
pub mod sheet;
mod slope;
mod slopes;
pub mod winners;

/// Even wins a vertex exactly where a good ranking says so.
pub fn ranking_decides()
    ensures { RankingDecides }
{}
