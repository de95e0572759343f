//! The bytes of redo records, both ways.
#![tactic(auto)]

mod decoding;
mod encoding;
mod fault;
mod lent;
mod reading;

pub use decoding::{decode, decode_lent, none_begins_another};
pub use encoding::{encode, size_of};
pub use fault::FormatFault;
pub use lent::{LentImage, LentRedo};
