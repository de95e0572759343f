//! Traces: which bytes tell a life of the cluster, and that no two lives are told alike.
#![tactic(auto)]

mod header;
pub mod kinds;
mod laws;

pub use header::Header;
pub use laws::{no_two_lives_have_one_trace, traces_are_read, what_is_read_is_written};
