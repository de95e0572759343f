//! The API: the block of the shell's host that takes the shell's requests, asks the coordinators,
//! and collects the replies.
#![tactic(auto)]

mod api;
mod commands;
mod dump;
mod gathered;
mod laws;
mod lists;
mod members;
mod opened;
mod operate;
mod outcome;
mod views;
mod wait;

pub use api::Api;
pub use laws::keeps_to_its_words;
pub use opened::{
    Doing, OpenTransaction, is_beginning, is_unanswered, place_beginning_at, place_named,
};
