//! Runs and hosts that the laws speak of, written out: there are such logs, and this is what the laws say of them.
#![tactic(auto)]

mod reached;
mod samples;

pub use reached::the_shell_alone_reaches_a_start_that_its_view_lacks;
pub use samples::{puts_are_told, waits_are_granted};
