//! What a restart finds of the rows that a node saved on its disk, whatever a crash left there.
#![tactic(auto)]

mod laws;

pub use laws::{
    names_keep_rows, ready_disks_have_rows, replays_stop_at_epochs, restored_rows_are_storable,
    rows_are_restored, saves_keep_rows, system_saves_keep_rows, walks_keep_rows,
};
