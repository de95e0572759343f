//! What a command comes to, between two quiet moments.
#![tactic(auto)]

mod between;
mod commands;

pub use between::requests_are_served;
pub use commands::{
    a_commit_is_served, aborts_are_answered, commits_are_committed, commits_come_to_something,
    each_operation_is_held_up, holders_are_told, lone_operations_are_answered,
    lone_operations_are_committed, no_abort_waits, no_reply_tells_of_a_stopped_host,
    operations_are_answered, operations_come_to_something, requests_are_answered,
    waiting_aborts_are_heard,
};
