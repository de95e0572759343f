//! Moments of runs in the order of views: at each the greatest view is the one in which things go on.
#![tactic(auto)]

mod moment_laws;

pub use moment_laws::{logs_are_moments, steps_come_to_parts, takers_stand_in_the_current_view};
