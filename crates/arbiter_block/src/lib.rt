//! The arbitrator: it grants at most one set of members for each view number.
#![tactic(auto)]

mod arbiter;
mod laws;
mod sets;

pub use arbiter::Arbiter;
pub use laws::{
    asked_again_is_answered_alike, each_set_lies_in_the_one_before, keeps_to_its_words,
    last_grant_is_kept, one_set_for_each_number, zero_is_never_granted,
};
