// The part of a system on which the answer for its initial state rests.
#![tactic(auto)]

pub mod drawing;
pub mod one_way;
pub mod part;
pub mod walk;
