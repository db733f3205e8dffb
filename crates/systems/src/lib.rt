// Labelled transition systems, and how labels are read.
#![tactic(auto)]

pub mod label;
pub mod limits;
pub mod system;

pub use label::{Label, LabelView};
pub use system::{Lts, Transition};
