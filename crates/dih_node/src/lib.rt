//! The epochs of a node, under views: each decided transaction is given one.
#![tactic(auto)]

mod dih;
mod fences;
mod laws;
mod orders;
mod verify;

pub use dih::{Counted, Dih, Report, TRANSACTIONS};
pub use laws::{
    epochs_never_fall, keeps_to_its_words, none_is_given_while_prepared, reports_are_true,
};
