//! Hosts don't look at epochs: their steps are the same whatever epochs they are in.
#![tactic(auto)]

mod level_laws;

pub use level_laws::hosts_are_level;
