//! What clients asked for and were told, whatever stops and is cut off.
#![tactic(auto)]

mod talk_laws;

pub use talk_laws::{decided_as_asked_and_told, reports_are_marked};
