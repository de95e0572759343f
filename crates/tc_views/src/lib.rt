//! The transaction coordinator of a node, under views: what fences and installations make of its
//! transactions.
#![tactic(auto)]

mod coordinator;
mod laws;
mod views;

pub use coordinator::Coordinator;
pub use laws::{
    calm_steps, doomed_are_not_decided, failed_are_told_the_view, keeps_to_its_words,
    none_is_left_twice,
};
