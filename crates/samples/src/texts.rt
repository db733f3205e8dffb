// Texts of systems and formulas, and what they are read as.

use calculus::closed::Closed;
use calculus::form::Normal;
use formula::error::FormulaError;
use formula::parse;
use lts::{AutError, Lts, read_aut};
use normal::make::normal;
use std::alloc::{AllocError, Global};
use std::hash::{BuildHasherDefault, FoldHasher};

/// From its first state to its second by `a`, and back by `b`.
pub const RING: &str = "des (0,2,2)\n(0,\"a\",1)\n(1,\"b\",0)\n";

/// `head`, then `part` this often, then `tail`.
pub fn repeated_text(
    alloc: Global,
    head: &str,
    part: &str,
    times: usize,
    tail: &str,
) -> Result<String, AllocError> {
    let mut text = String::from_str(alloc, head)?;
    for _ in 0..times {
        text.push_str(part)?;
    }
    text.push_str(tail)?;
    Ok(text)
}

/// A ring whose first step is `a` and whose others are `b`.
pub fn ring(alloc: Global, states: usize) -> Result<String, AllocError> {
    let mut text = format!(in alloc; "des (0,{states},{states})\n")?;
    for state in 0..states {
        let label = if state == 0 { "a" } else { "b" };
        let next = if state + 1 < states { state + 1 } else { 0 };
        write!(text, "({state},\"{label}\",{next})\n")?;
    }
    Ok(text)
}

/// What tells labels apart in the same way in each run.
pub fn unseeded() -> BuildHasherDefault<FoldHasher> {
    BuildHasherDefault::new()
}

pub fn system_read(alloc: Global, text: &str) -> Result<Lts, AutError> {
    read_aut(alloc, unseeded(), text.as_bytes())
}

pub fn parsed_formula(alloc: Global, text: &str) -> Result<Closed, FormulaError> {
    parse(alloc, text.as_bytes())
}

/// The normal form of the text's formula, if it has one.
pub fn form_of(alloc: Global, text: &str) -> Option<Normal> {
    let formula = parsed_formula(alloc, text).ok()?;
    normal(alloc, &formula).ok()
}
