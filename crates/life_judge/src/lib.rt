//! Judges what a cluster did in a life, by the laws that it is to keep, written from what they say. It
//! reads the logs alone, and calls no block.
#![tactic(auto)]

mod client;
mod cut;
mod decisions;
mod dice;
mod epochs;
mod facts;
mod growth;
mod history;
mod law;
mod logs;
mod moment;
mod order;
mod owed;
mod records;
mod reports;
mod restart;
mod rows;
mod verdict;
mod views;

pub use dice::Dice;
pub use law::{Fault, Law};
pub use restart::judge_restart;
pub use rows::NodeRows;
pub use verdict::judge;
