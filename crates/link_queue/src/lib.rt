//! Links between hosts that run on threads: signals are taken in the order in which they were sent, and none is lost.
#![tactic(auto)]

mod link;
mod rule;
mod sender;
mod taker;

pub use link::{compare, join, make};
pub use rule::LINK_SIGNALS;
pub use sender::LinkTx;
pub use taker::LinkRx;
