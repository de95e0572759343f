//! The bytes of traces as lives of the cluster.
#![tactic(auto)]

mod fault;
mod input;
mod read;
mod run;
mod stop;
mod trace;

pub use fault::TraceFault;
pub use trace::read_trace;
