//! The log of redo records: a journal whose bytes are given out in pieces, for a ring of files.
#![tactic(auto)]

mod image_id;
mod laws;
mod log;
mod prepared;
mod replaying;
mod stored;

pub use laws::{
    pieces_are_stored, pieces_are_the_records, records_are_not_damaged,
    stored_records_are_replayed, synced_bytes_stay, writes_lay_pieces,
};
pub use log::Log;
pub use replaying::{replay, replay_bytes};
pub use stored::read_log;
