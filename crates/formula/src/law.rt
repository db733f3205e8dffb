// What holds of all texts of formulas.

ghost use Rattle.formula.specs.Laws.{OneFormula, FormulaTextSpells, CanonSpellsWithin, NoFormulaFault, OneFormulaFault, FormulaTextIsDecided};

/// A text spells at most one formula: the grammar is unambiguous.
pub fn one_formula()
    ensures { OneFormula }
{}

/// The canonical text of a formula that some text spells is a text of that formula.
pub fn formula_text_spells()
    ensures { FormulaTextSpells }
{}

/// The canonical text of a formula that some text spells within the limits is a text of it within the limits, where it
/// is not too long. So `parse` reads the formula that was printed from it, memory aside.
pub fn canon_spells_within()
    ensures { CanonSpellsWithin }
{}

/// A text that spells an admitted formula within the limits has no deciding fault.
pub fn no_formula_fault()
    ensures { NoFormulaFault }
{}

/// A text has at most one deciding fault, at one place.
pub fn one_formula_fault()
    ensures { OneFormulaFault }
{}

/// It can't be that a text has neither: an admitted formula that it spells within the limits, or a deciding fault. So by
/// `no_formula_fault` it has just one of the two, and by `one_formula_fault` one fault. Which of them isn't computed here: `parse` does.
pub fn decided()
    ensures { FormulaTextIsDecided }
{}
