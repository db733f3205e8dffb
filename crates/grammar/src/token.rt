// The tokens of a formula's text.

/// A token; names and quoted atoms lend their bytes from the text.
#[derive(Clone, Copy)]
pub enum Token<'a> {
    Name(&'a [u8]),
    Atom(&'a [u8]),
    TrueWord,
    FalseWord,
    MuWord,
    NuWord,
    TauWord,
    ImpliesSign,
    OrSign,
    AndSign,
    Bar,
    NotSign,
    Less,
    Greater,
    OpenBox,
    CloseBox,
    Open,
    Close,
    Dot,
    ChoiceSign,
    PlusSign,
    StarSign,
}

/// A token, and where it begins in the text, in bytes.
#[derive(Clone, Copy)]
pub struct Placed<'a> {
    pub token: Token<'a>,
    pub offset: usize,
}
