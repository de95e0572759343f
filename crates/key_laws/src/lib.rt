//! The laws of one key of one replica: its row, its records, its locks, and what each event leaves.
#![tactic(auto)]

mod event_laws;
mod join_laws;
mod lock_laws;
mod row_laws;

pub use event_laws::{events_at_backup, events_at_primary};
pub use join_laws::keys_join;
pub use lock_laws::{holders_hold_on, waits_end_in_holding};
pub use row_laws::{backup_keeps_value, primary_keeps_answers_right, primary_keeps_value};
