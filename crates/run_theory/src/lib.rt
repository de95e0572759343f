//! Hosts that exchange signals over first-in-first-out links: their logs, runs and closed cuts.
//!
//! The definitions stand in `specs/`, and each law is the contract of a function that does nothing. A law ranges over
//! every machine whose relations are tests; for any other machine cite the lemma of `proofs/`.
#![tactic(auto)]

mod along_laws;
mod cut_laws;
mod host_laws;
mod link_laws;
mod literal_laws;
mod run_laws;

pub use along_laws::{along_run, along_signals, of_runs};
pub use cut_laws::{closed_cuts_are_right_logs, closed_cuts_grow};
pub use host_laws::{
    equal_lengths_are_quiet, lengths_cut_logs, logs_of_hosts, pairs_of_hosts, steps_add_behind,
};
pub use link_laws::{
    closing_is_last, first_in_first_out, hosts_are_made_first, links_project, nothing_follows_stop,
    stamps_rise, taken_at_most_once,
};
pub use literal_laws::channels_admit_runs;
pub use run_laws::{
    ranked_logs_are_a_run, right_logs_are_a_run, runs_leave_right_logs,
    schedules_run_in_merged_order,
};
