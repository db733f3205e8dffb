// Tests of progress measures, of boards, of events and of workers, by what the crates offer to others.
#![tactic(auto)]

#[cfg(test)]
mod boards;
#[cfg(test)]
mod climbing_workers;
#[cfg(test)]
mod common;
#[cfg(test)]
mod hubs;
#[cfg(test)]
mod many_workers;
#[cfg(test)]
mod observers;
#[cfg(test)]
mod progress_measures;
#[cfg(test)]
mod random_schedules;
#[cfg(test)]
mod refused_memory;
#[cfg(test)]
mod schedules;
#[cfg(test)]
mod unasked;
#[cfg(test)]
mod worked_games;
