//! Lists of peers: the other hosts as a host has them, with what waits to go into the links to them.
#![tactic(auto)]

mod backlog;
mod laws;
mod list;
mod peer;
mod sending;

pub use backlog::Backlog;
pub use laws::{peers_get_theirs, steps_are_delivered};
pub use list::{deliver, find, held_for, place, sent_to, taken_from};
pub use peer::Peer;
pub use sending::Sending;
