// The writers that a check may be lent beside that of its report.

/// The writers for the texts of evidence: Even's and Odd's, or neither.
#[derive(Drop)]
pub enum EvidenceWriters<'a, E, O> {
    Neither,
    Both(&'a mut E, &'a mut O),
}

/// A writer for each text of a check, in the order in which they are written to.
#[derive(Drop)]
pub struct Writers<G, E, O, V, W> {
    pub game: G,
    /// Of Even's evidence.
    pub even: E,
    /// Of Odd's.
    pub odd: O,
    pub witness: V,
    pub report: W,
}
