// The numbers of nodes, by state, with the lists that they share.

/// The numbers of a node: at each state this one for the player who is said to win there, with so many units as a list counts, and what a list of words adds.
/// The marks of the states that Odd is said to win begin with this word of all marks. Both lists have these places among the lists; past the last list
/// nothing is counted or added.
#[derive(Clone, Copy)]
pub struct Marked {
    pub marks: u32,
    pub even: u64,
    pub odd: u64,
    pub unit: u64,
    pub counts: u32,
    pub words: u32,
}

/// The numbers of a node, by state.
#[derive(Clone, Copy)]
pub enum Column {
    /// One number for all states.
    Same(u64),
    /// Those of whoever is said to win.
    Won(Marked),
}

/// The columns by node, with the lists that they share. Past the end of a list all is zero.
#[derive(Drop)]
pub struct Columns {
    pub nodes: Vec<Column>,
    /// Marks, 64 in a word.
    pub marks: Vec<u64>,
    pub counts: Vec<Vec<u32>>,
    pub words: Vec<Vec<u64>>,
}
