//! What replies, marks and signals tell of transactions, in words, and how histories grow.
#![tactic(auto)]

mod laws;

pub use laws::histories_grow;
