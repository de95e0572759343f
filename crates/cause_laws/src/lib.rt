//! Each abort, and each beginning that a coordinator turns away, has its cause.
#![tactic(auto)]

mod laws;

pub use laws::{
    aborts_are_caused, closed_cuts_have_aborts, only_long_waits_expire, replies_are_caused,
    replies_are_told, time_outs_take_eight_rounds, turned_away_are_too_many,
    waits_have_their_rounds,
};
