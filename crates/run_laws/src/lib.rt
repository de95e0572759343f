//! The laws of runs: what signals in transit tell, what came before what, and what each key is owed.
#![tactic(auto)]

mod circle_laws;
mod completion_laws;
mod cut_laws;
mod owed_laws;
mod route_laws;
mod token_laws;
mod way_laws;

pub use circle_laws::verified_are_settled;
pub use completion_laws::completions_follow_commits;
pub use cut_laws::{
    commits_are_of_decided, epochs_never_fall, greatest_view_is_viable, histories_are_strict,
    right_keys_make_cuts_serial,
};
pub use owed_laws::keys_get_what_is_owed;
pub use route_laws::{
    coming_signals_are_routed, replicas_are_nodes, signals_are_routed, transactions_are_keyed,
};
pub use token_laws::{
    decided_ask_nothing, operations_come_one_at_a_time, requests_stand_alone, who_asks_is_undecided,
};
pub use way_laws::{
    commits_are_decided, runs_have_transit, transactions_go_one_way, who_asks_waits,
};
