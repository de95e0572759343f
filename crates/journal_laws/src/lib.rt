//! What the journal of a node's rows has, and what its records make of the rows with which a life began.
#![tactic(auto)]

mod checkpoints;
mod laws;

pub use checkpoints::local_checkpoints_stand;
pub use laws::{
    journals_have_records, journals_have_room, own_rows_are_the_rows, replays_give_own_rows,
    walks_are_followed,
};
