//! A restart from what a crash left of the disks of a life gives its history up to one epoch.
#![tactic(auto)]

mod handed_on;
mod lives;
mod restart;
mod told;

pub use handed_on::{lives_are_handed_on, lives_go_on_from_history, new_disks_are_fit};
pub use lives::{lives_ask_and_hear, lives_begin, lives_go_on, lives_restart};
pub use restart::restarts_are_history;
pub use told::steps_tell_what_is_kept;
