//! The transaction coordinator of a node.
#![tactic(auto)]

mod abort;
mod commit;
mod complete;
mod doom;
mod operate;
mod phase;
mod resume;
mod sends;
mod task;
mod tasks;
mod tc;
mod touched;
mod transaction;

pub use task::{Task, Verdict};
pub use tc::{TRANSACTIONS, Tc};
