//! Loads from a number: which transactions a load runs, and when it has an epoch made durable, by how many
//! they are and by a seed alone.
#![tactic(auto)]

mod load;
mod random;
mod text;
mod waves;

pub use load::{Asked, Load, WAVE};
pub use waves::wave;
