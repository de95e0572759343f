//! What is decided of transactions and what clients are told of it, whatever stops and is cut off.
#![tactic(auto)]

mod decision_laws;
mod outcome_laws;

pub use decision_laws::{
    decided_in_strict_order, no_down_is_told, tellers_know, transactions_are_decided_once,
};
pub use outcome_laws::{
    commits_were_decided, none_that_was_down_was_decided, transactions_are_reported_once,
};
