//! The slots of the system file and the control file: their bytes, and how one is written so that no
//! crash leaves half of it.
#![tactic(auto)]

mod control;
mod laws;
mod number;
mod owner;
mod place;
mod read;
mod system;
mod write;

pub use control::{CONTROL_BYTES, REDO_BYTES, control_bytes};
pub use laws::{
    a_written_slot_stays, an_open_slot_is_whole, control_slots_are_read, system_slots_are_read,
    the_other_slot_is_kept, the_other_slot_stays, the_steps_are_the_calls,
};
pub use owner::{OWNER, OWNER_BYTES, read_owner, write_owner};
pub use place::{CLOSED, CONTROL_FILE, OPEN, SLOT_SPACE, SYSTEM_FILE, VERSION, place_of};
pub use read::{
    control_at, is_earlier, later_system, of_generation, read_control, read_system, system_at,
};
pub use system::{SYSTEM_BYTES, system_bytes};
pub use write::{SlotStep, write_slot, write_step};
