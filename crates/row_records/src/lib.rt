//! The records of transactions that are at work on the rows of a node.
#![tactic(auto)]

mod record_id;
mod records;

pub use record_id::{RecordId, Version};
pub use records::Records;
