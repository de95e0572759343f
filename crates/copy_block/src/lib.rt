//! The copying: it drives the joining of a node that begins anew, and copies fragments to one.
#![tactic(auto)]

mod copying;
mod feeding;
mod handing;
mod joining;
mod laws;
mod sends;
mod stage;

pub use copying::CopyBlock;
pub use laws::keeps_to_its_words;
pub use stage::{Feed, Joiner, Stage, Task};
