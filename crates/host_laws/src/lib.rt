//! The laws of one host along its log: coordinators and replicas, whatever signals they take.
#![tactic(auto)]

mod coordinator_laws;
mod replica_laws;

pub use coordinator_laws::{coordinators_go_one_way, coordinators_say};
pub use replica_laws::{logs_follow_events, replicas_are_their_keys};
