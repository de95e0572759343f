//! The laws of peaceful logs: a cluster that may fail does, while nothing fails, what one does in which
//! nothing can, and closes epochs besides.
#![tactic(auto)]

mod closing;
mod peace_laws;
mod steps;

pub use closing::closings_end;
pub use peace_laws::{closings_are_answered, peaceful_lives_are_plain};
pub use steps::closings_step_near;
