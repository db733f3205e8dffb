// What holds of all parity games and their progress measures (Jurdziński 2000, Small progress measures for solving parity games).

ghost use Rattle.measures.specs.Laws.{
  DualTop,
  DualWins,
  LeastDecides,
  LeastExists,
  LeastIsOne,
  LiftingEnds,
  LiftingFindsLeast,
  NotBothWin,
  OneWins,
  ProgExists,
  RankIsCode,
  TableWins,
  WinsHaveTables,
};

/// For each priority and measure there is a least measure that reaches it.
#[tactic(auto, using(measures::proofs::Measures::prog))]
pub fn prog_exists()
    ensures { ProgExists }
{}

/// Even wins each vertex at which some progress table isn't top, by choosing a successor with the least `prog`.
#[tactic(auto, using(measures::proofs::TableWins::table_wins))]
pub fn table_wins()
    ensures { TableWins }
{}

/// At each vertex that Even wins some progress table isn't top: at each vertex it counts how often a strategy of Even meets
/// each odd priority at most before a greater one.
pub fn wins_have_tables()
    ensures { WinsHaveTables }
{}

/// The least progress table isn't top exactly where Even wins.
pub fn least_decides()
    ensures { LeastDecides }
{}

/// Each game has a least progress table.
#[tactic(auto, using(crate::proofs::LeastExists::least_exists))]
pub fn least_exists()
    ensures { LeastExists }
{}

/// It has one only.
#[tactic(auto, using(crate::proofs::LeastExists::least_unique))]
pub fn least_is_one()
    ensures { LeastIsOne }
{}

/// No vertex is won by both players.
pub fn not_both_win()
    ensures { NotBothWin }
{}

/// Each vertex is won by one of them (positional determinacy).
#[tactic(auto, using(crate::proofs::OneWins::one_wins))]
pub fn one_wins()
    ensures { OneWins }
{}

/// Odd wins a vertex exactly where Even wins it in the dual game.
pub fn dual_wins()
    ensures { DualWins }
{}

/// The least table is top exactly where that of the dual game isn't.
#[tactic(auto, using(crate::proofs::DualTop::top_exactly))]
pub fn dual_top()
    ensures { DualTop }
{}

/// Lifts from the opening table, at one vertex after another in any order, come to no progress table but the least.
#[tactic(auto, using(measures::proofs::Lifting::lifting_least))]
pub fn lifting_finds_least()
    ensures { LiftingFindsLeast }
{}

/// Lifts that each change the table are at most the number of vertices times that of the lists of counts.
#[tactic(auto, using(measures::proofs::Lifting::lifting_ends))]
pub fn lifting_ends()
    ensures { LiftingEnds }
{}

/// The rank of a measure, the number of measures below it, is its counts read in mixed radix.
#[tactic(auto, using(measures::proofs::Ranks::rank_is))]
pub fn rank_is_code()
    ensures { RankIsCode }
{}
