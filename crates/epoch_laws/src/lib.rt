//! Epochs across views, whatever stops and is cut off.
#![tactic(auto)]

mod epoch_laws;

pub use epoch_laws::{epochs_never_fall, epochs_stand};
