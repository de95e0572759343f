//! The takeover: it ends the transactions of coordinators that failed.
#![tactic(auto)]

mod abort;
mod commit;
mod gather;
mod gathered;
mod keys;
mod laws;
mod rule;
mod sends;
mod stage;
mod takeover;

pub use laws::{
    aborts_what_nobody_committed, commits_what_was_told, gathered_stand_in_order,
    keeps_to_its_words, rules_when_all_have_ended, tells_when_all_have_answered,
};
pub use takeover::Takeover;
