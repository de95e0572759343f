//! What is answered when nothing is under way.
#![tactic(auto)]

mod laws;

pub use laws::{
    each_asks_where_operating, each_commit_is_heard, each_has_a_coordinator, each_is_answered,
    each_is_kept_by_its_coordinator, each_is_numbered, each_operation_is_asked,
    each_operation_is_queued, each_operation_waits, no_abort_is_awaited, no_begin_is_lost,
    no_commit_is_awaited, no_epoch_is_awaited, quiet_logs_have_transactions,
};
