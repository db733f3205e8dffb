// What holds of all texts of systems.

ghost use Rattle.lts.specs.Laws.{OneSystem, NoAutFault, OneAutFault, AutTextIsDecided, AutTextSpells};

/// A text spells at most one system.
pub fn one_system()
    ensures { OneSystem }
{}

/// A text that spells a system has no deciding fault.
pub fn no_aut_fault()
    ensures { NoAutFault }
{}

/// A text has at most one deciding fault, at one line.
pub fn one_aut_fault()
    ensures { OneAutFault }
{}

/// A text spells a system, or a fault decides: with the laws above, one of the two and just one of its kind.
pub fn aut_text_is_decided()
    ensures { AutTextIsDecided }
{}

/// The canonical text of a system spells the system, and by `one_system` no other.
pub fn aut_text_spells()
    ensures { AutTextSpells }
{}
