//! The laws of calm steps: a host of a cluster that may fail does, while nothing fails and no epoch is
//! closed, what one does in which nothing can.
#![tactic(auto)]

mod resting;
mod steps;

pub use resting::{lives_begin_at_rest, plain_sends_are_calm};
pub use steps::{coming_signals_are_known, hosts_begin_alike, steps_are_alike};
