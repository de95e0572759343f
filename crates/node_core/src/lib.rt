//! The hosts of a cluster in which nothing can fail: the shell's, and the parts of the data nodes,
//! each with its blocks. They are a model: what they consist of is here, what they do is their row
//! in `specs`, and nothing runs them.
#![tactic(auto)]

mod dih;
mod host;
mod main_part;
mod tc_part;

pub use host::Host;
pub use main_part::MainPart;
pub use tc_part::TcPart;
