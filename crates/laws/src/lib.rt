// The law that joins systems, formulas, parity games and progress measures.
#![tactic(auto)]

ghost use Rattle.laws.specs.Laws.{
  AdmissibleFromInside,
  ChosenIsAdmissible,
  EvenWinsFormula,
  EvenWinsWhereMeant,
  LeastTableDecides,
  LeastTableFormula,
  MeaningWins,
  NestedIsAdmissible,
  NestedTableDecides,
  NestedWins,
  NodesFollow,
  NormalFormMeans,
  TablesAreSound,
};

pub mod games;

/// The normal form of an admitted formula holds at the states where the formula does (Kozen 1983, Results on the propositional mu-calculus,
/// has the equations behind it).
#[tactic(auto, using(crate::proofs::Normed::normal_form_means))]
pub fn normal_form_means()
    ensures { NormalFormMeans }
{}

/// Each node by a rule of priorities has its part's shape and the rule's priority: with this a rule is shown to be admissible.
pub fn nodes_follow()
    ensures { NodesFollow }
{}

/// Priorities are admissible exactly where each binder's is at least that of each binder inside it in whose subformula its variable is free.
#[tactic(auto, using(crate::proofs::Inner::admissible_from_inside))]
pub fn admissible_from_inside()
    ensures { AdmissibleFromInside }
{}

/// The nested rule gives admissible priorities, and an admitted formula's normal form is closed.
pub fn nested_is_admissible()
    ensures { NestedIsAdmissible }
{}

/// Either rule gives admissible priorities: so the laws below hold of the game by either.
pub fn chosen_is_admissible()
    ensures { ChosenIsAdmissible }
{}

/// Where the value of a progress table isn't top, least or not, the state is in the meaning of the node.
#[tactic(auto, using(crate::proofs::Sound::tables_are_sound))]
pub fn tables_are_sound()
    ensures { TablesAreSound }
{}

/// By one choice Even wins at each state with each node in whose meaning the state is, and nowhere else but at the true sink.
#[tactic(auto, using(crate::proofs::Wins::meaning_wins))]
pub fn meaning_wins()
    ensures { MeaningWins }
{}

/// Even wins exactly where the state is in the meaning of the node: for every admissible assignment of priorities.
pub fn even_wins_where_meant()
    ensures node { EvenWinsWhereMeant }
    ensures root { EvenWinsFormula }
{}

/// The least progress table isn't top exactly where the state is in the meaning of the node: for every admissible assignment of priorities.
#[tactic(auto, using(crate::proofs::Decided::least_table_decides, crate::proofs::Decided::least_table_formula))]
pub fn least_table_decides()
    ensures node { LeastTableDecides }
    ensures root { LeastTableFormula }
{}

/// With the nested priorities the game decides the formula: by its winner at the root, and by the least progress table's value there.
pub fn formula_is_decided()
    ensures least { NestedTableDecides }
    ensures wins { NestedWins }
{}
