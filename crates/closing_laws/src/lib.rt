//! Closed epochs stay closed, whatever stops and is cut off.
#![tactic(auto)]

mod closing_laws;

pub use closing_laws::{
    closed_epochs_stay_closed, closers_have_heard_all, durable_epochs_were_closed,
    ended_ones_are_done, takeovers_leave_none,
};
