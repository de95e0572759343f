//! What is asked of a cluster that is tried out: for commands of a script, and at random.
#![tactic(auto)]

mod commands;
mod drawn;
mod fault;

pub use commands::{request_of, requests};
pub use drawn::{all_keys, draw_request};
pub use fault::DrawFault;
