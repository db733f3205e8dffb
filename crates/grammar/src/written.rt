// Formulas as they are written, with their parentheses.

ghost use Rattle.std.specs.Prelude.{◌≡◌};
ghost use Rattle.grammar.specs.Syntax.{counts_as_action as counts};
ghost use Rattle.grammar.specs.Written.{infix_row, connective_row, joins_actions as joins, reg_syntax};

/// A sign between two regular formulas.
#[derive(Clone, Copy)]
pub enum Infix {
    And,
    Or,
    Implies,
    Then,
    Either,
}

/// A postfix sign.
#[derive(Clone, Copy)]
pub enum Repeat {
    Star,
    Plus,
}

/// A regular or action formula as it is written.
#[derive(Drop)]
pub enum WrittenRegular<'a> {
    True,
    False,
    Tau,
    Names(&'a [u8], Vec<&'a [u8]>),
    Quoted(&'a [u8]),
    Parens(Box<WrittenRegular<'a>>),
    Not(Box<WrittenRegular<'a>>),
    Joined(Infix, Box<WrittenRegular<'a>>, Box<WrittenRegular<'a>>),
    Repeated(Repeat, Box<WrittenRegular<'a>>),
}

/// A sign between two state formulas.
#[derive(Clone, Copy)]
pub enum Connective {
    And,
    Or,
    Implies,
}

/// The brackets of a modality.
#[derive(Clone, Copy)]
pub enum Brackets {
    Diamond,
    Box,
}

/// The word of a binder.
#[derive(Clone, Copy)]
pub enum Binder {
    Mu,
    Nu,
}

/// A state formula as it is written.
#[derive(Drop)]
pub enum WrittenState<'a> {
    True,
    False,
    Var(&'a [u8]),
    Group(Box<WrittenState<'a>>),
    Not(Box<WrittenState<'a>>),
    Joined(Connective, Box<WrittenState<'a>>, Box<WrittenState<'a>>),
    Modal(Brackets, WrittenRegular<'a>, Box<WrittenState<'a>>),
    Bind(Binder, &'a [u8], Box<WrittenState<'a>>),
}

impl Infix {
    /// The row of the grammar's table that the sign makes, from 2 for the strongest.
    pub fn level(self) -> u8
        ensures { result ≡ infix_row self }
    {
        match self {
            Infix::And => 2,
            Infix::Or => 3,
            Infix::Implies => 4,
            Infix::Then => 6,
            Infix::Either => 7,
        }
    }

    /// Whether the sign joins action formulas to one.
    pub fn joins_actions(self) -> bool
        ensures { result ≡ joins self }
    {
        match self {
            Infix::And | Infix::Or | Infix::Implies => true,
            Infix::Then | Infix::Either => false,
        }
    }
}

impl Connective {
    /// The row of the grammar's table that the sign makes, from 1 for the strongest.
    pub fn level(self) -> u8
        ensures { result ≡ connective_row self }
    {
        match self {
            Connective::And => 1,
            Connective::Or => 2,
            Connective::Implies => 3,
        }
    }
}

impl WrittenRegular<'_> {
    /// Whether the formula counts as an action formula.
    pub fn counts_as_action(&self) -> bool
        ensures { result ≡ counts (reg_syntax self.now) }
    {
        match self {
            WrittenRegular::Parens(inner) => inner.counts_as_action(),
            WrittenRegular::Repeated(_, _) => false,
            WrittenRegular::Joined(sign, _, _) => sign.joins_actions(),
            _ => true,
        }
    }
}
