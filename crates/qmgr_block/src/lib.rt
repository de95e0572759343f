//! The membership of a data node: heartbeats, suspects, promises, and the views that follow.
#![tactic(auto)]

mod decide;
mod install;
mod join;
mod known;
mod laws;
mod promise;
mod propose;
mod qmgr;
mod ring;
mod sends;
mod sets;
mod starts;
mod suspects;

pub use laws::{
    keeps_to_its_words, last_promise_is_not_below_the_view, numbers_never_fall, proposals_are_new,
    starts_are_not_forgotten,
};
pub use qmgr::Qmgr;
