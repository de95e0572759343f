//! Lives of the cluster as the bytes of traces.
#![tactic(auto)]

mod fault;
mod output;
mod trace;
mod write;

pub use fault::WriteFault;
pub use trace::{TRACE_BYTES, write_step, write_trace};
