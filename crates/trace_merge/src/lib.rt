//! The logs of a life, computed with: the run that they are, and whether a cut of them is closed.
#![tactic(auto)]

mod closed;
mod merging;
mod run;

pub use closed::{CutFault, is_closed};
pub use merging::merge;
pub use run::{Run, RunStep};
