// What tests are made of: claims, texts, games, readers that fail, writers with little room, workers that wait for each other, what is shown of an answer.
#![tactic(auto)]

pub mod answers;
pub mod claims;
pub mod dice;
pub mod games;
pub mod host;
pub mod lifters;
pub mod meeting;
pub mod readers;
pub mod ring_games;
pub mod texts;
pub mod writers;
