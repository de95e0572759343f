//! What members have saved is the history, and what was told before an epoch is durable.
#![tactic(auto)]

mod checkpoints;
mod closings;
mod copied;
mod history;
mod keys;
mod locks;

pub use checkpoints::{saved_are_of_the_life, saved_before_is_durable, walked_checkpoints_stand};
pub use closings::{
    closed_ones_are_committed, commits_were_decided, committed_ones_are_final, saved_were_closed,
};
pub use copied::{copied_were_saved, done_were_marked, durable_were_noted};
pub use history::saved_rows_are_history;
pub use keys::{other_keys_are_unlogged, other_keys_stay, saved_are_below_the_last};
pub use locks::{members_keep_locks, prepared_stand_alone};
