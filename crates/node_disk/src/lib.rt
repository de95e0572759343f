//! What a node writes to its disk while it runs: its rows, as a redo log has them, and its system slot.
//! Each save is made whole, between two steps of the node.
#![tactic(auto)]

mod ckpt;
mod found;
mod laws;
mod redo;
mod slots;

pub use found::read_slots;
pub use laws::{
    a_control_slot_stays, a_naming_slot_stays, a_ready_disk_has_slots, a_system_slot_stays,
    checkpoints_leave_files, redo_is_synced_first, saves_of_rows_leave_files,
    saves_of_the_system_leave_files, slots_are_in_use,
};
pub use slots::NodeSlots;
