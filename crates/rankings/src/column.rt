// Columns as they are read.

/// The numbers of a node, with their lists.
#[derive(Clone, Copy)]
pub(crate) struct ColumnView<'a> {
    pub(crate) marks: &'a [u64],
    pub(crate) first: u32,
    pub(crate) even: u64,
    pub(crate) odd: u64,
    pub(crate) unit: u64,
    pub(crate) counts: &'a [u32],
    pub(crate) words: &'a [u64],
}

/// A column that is lent.
#[derive(Clone, Copy)]
pub(crate) enum Numbers<'a> {
    Same(u64),
    Won(ColumnView<'a>),
}
