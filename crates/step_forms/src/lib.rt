//! What is so of each form of signal and mark of a step is so of all that the step does.
#![tactic(auto)]

mod laws;

pub use laws::portions_are_of_their_lists;
