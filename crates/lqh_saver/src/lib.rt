//! What the rows of a node do for local checkpoints and for the redo before them: a layer round the rows.
#![tactic(auto)]

mod laws;
mod redo;
mod saver;
mod stage;
mod switching;
mod walking;

pub use laws::{keeps_to_its_words, steps_are_of_rows};
pub use saver::Saver;
pub use stage::{Stage, Todo};
pub use switching::{CHECKPOINTS, POSITIONS};
