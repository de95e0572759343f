//! Row locks: shared and exclusive locks on keys, with queues that are served in order.
#![tactic(auto)]

mod claim;
mod holders;
mod keeping;
mod keeping_laws;
mod laws;
mod mode;
mod queue;
mod row;
mod serving;
mod table;

pub use keeping::Keeper;
pub use keeping_laws::keeping_stays_orderly;
pub use laws::{granted_are_last_holders, locks_stay_orderly, waits_are_for_others};
pub use mode::{Lock, Mode};
pub use table::LockTable;
