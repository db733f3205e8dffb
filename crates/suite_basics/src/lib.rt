// Tests of texts, of formulas with their meaning and their normal forms, of games, of evidence and of witnesses, by what the crates offer to others.
#![tactic(auto)]

#[cfg(test)]
mod batches;
#[cfg(test)]
mod common;
#[cfg(test)]
mod formulas;
#[cfg(test)]
mod game_texts;
#[cfg(test)]
mod games;
#[cfg(test)]
mod gauges;
#[cfg(test)]
mod good_evidence;
#[cfg(test)]
mod lines_and_tokens;
#[cfg(test)]
mod normal_forms;
#[cfg(test)]
mod strange_words;
#[cfg(test)]
mod system_texts;
#[cfg(test)]
mod what_never_fails;
#[cfg(test)]
mod witnesses;
