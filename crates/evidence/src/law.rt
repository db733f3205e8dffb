// What evidence proves: laws of its definition alone.

ghost use Rattle.evidence.specs.Laws.{
  AllInOne,
  ArrowsKeepSteps,
  BestExists,
  BestIsOne,
  BestIsYes,
  EvidenceTextSpells,
  EvidenceTextIsDecided,
  DescentIsReaching,
  EvenEvidenceIsGood,
  GoodEvidenceWins,
  NoEvidenceFault,
  NoneInBoth,
  OddEvidenceIsGood,
  OneAnswer,
  OneEvidence,
  OneEvidenceFault,
  OneVerdict,
  PartsAreSystems,
  ReachedExists,
  ReachedIsClosed,
  WitnessMeans,
  WitnessShows,
  WitnessWins,
  WrittenIsAccepted,
  YesDecides,
};

/// Where no fault stands anywhere, the player wins each vertex of the set.
#[tactic(auto, using(crate::proofs::GoodWins::good_wins))]
pub fn good_evidence_wins()
    ensures { GoodEvidenceWins }
{}

/// A rank descends where, as a measure, it reaches the next one: Even's in the game, Odd's in the dual game.
pub fn descent_is_reaching()
    ensures { DescentIsReaching }
{}

/// Evidence has just one verdict.
pub fn one_verdict()
    ensures { OneVerdict }
{}

/// Two pieces have just one answer.
pub fn one_answer()
    ensures { OneAnswer }
{}

/// The least tables of a game and of its dual give evidence of Even and of Odd.
pub fn best_exists()
    ensures { BestExists }
{}

/// There is one such evidence of each.
pub fn best_is_one()
    ensures { BestIsOne }
{}

/// Even's has no fault, and holds exactly the vertices that Even wins.
#[tactic(auto, using(crate::proofs::BestGood::even_is_good))]
pub fn even_evidence_is_good()
    ensures { EvenEvidenceIsGood }
{}

/// Odd's has none either, and holds exactly those that Odd wins.
#[tactic(auto, using(crate::proofs::BestGood::odd_is_good))]
pub fn odd_evidence_is_good()
    ensures { OddEvidenceIsGood }
{}

/// Good evidence of Even and of Odd has no vertex in common.
#[tactic(auto, using(crate::proofs::Sides::none_in_both))]
pub fn none_in_both()
    ensures { NoneInBoth }
{}

/// Even's and Odd's of the least tables have every vertex (positional determinacy).
#[tactic(auto, using(crate::proofs::Sides::all_in_one))]
pub fn all_in_one()
    ensures { AllInOne }
{}

/// Where the answer of two is yes, each holds exactly the vertices that its player wins, and none is in both.
pub fn yes_decides()
    ensures { YesDecides }
{}

/// The answer is yes of those of the least tables.
pub fn best_is_yes()
    ensures { BestIsYes }
{}

/// What is reached from a vertex of good evidence is closed.
#[tactic(auto, using(crate::proofs::Cutting::reached_closed))]
pub fn reached_is_closed()
    ensures { ReachedIsClosed }
{}

/// There is a test of what is reached.
#[tactic(auto, using(crate::proofs::Reached::reached_exists))]
pub fn reached_exists()
    ensures { ReachedExists }
{}

/// A part that has the arrows on which the play goes on keeps the steps.
pub fn arrows_keep_steps()
    ensures { ArrowsKeepSteps }
{}

/// The arrows that pass a test make a system, and a part.
#[tactic(auto, using(crate::proofs::Kept::parts_are_systems))]
pub fn parts_are_systems()
    ensures { PartsAreSystems }
{}

/// Evidence that is cut to a closed set is good in the arena of a part of the system that keeps the steps in the set; so the player wins there.
pub fn witness_wins()
    ensures { WitnessWins }
{}

/// At the root the part says of the formula what the evidence says.
#[tactic(auto, using(crate::proofs::Parts::witness_means))]
pub fn witness_means()
    ensures { WitnessMeans }
{}

/// The part that has just the arrows that the play takes from the root says so too.
pub fn witness_shows()
    ensures { WitnessShows }
{}

/// A text spells one evidence of a game at most.
pub fn one_evidence()
    ensures { OneEvidence }
{}

/// A text that spells evidence has no deciding fault.
pub fn no_evidence_fault()
    ensures { NoEvidenceFault }
{}

/// A text has one deciding fault at most, at one line.
pub fn one_evidence_fault()
    ensures { OneEvidenceFault }
{}

/// The canonical text of evidence spells the evidence, and by `one_evidence` no other.
pub fn evidence_text_spells()
    ensures { EvidenceTextSpells }
{}

/// What is written of the least tables of a game, Even's and Odd's, is read again as what it is, and both together are accepted.
pub fn written_is_accepted()
    ensures { WrittenIsAccepted }
{}

/// A text spells evidence for a game, or a fault decides: with the laws above, one of the two and just one of its kind.
pub fn evidence_text_is_decided()
    ensures { EvidenceTextIsDecided }
{}
