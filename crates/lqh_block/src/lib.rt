//! The rows of a node: their locks, records, journal and markers.
#![tactic(auto)]

mod abort;
mod commit;
mod count_journal;
mod dump;
mod expire;
mod lqh;
mod operate;
mod ready;
mod request;
mod storage;
mod views;
mod wait;
mod work;

pub use count_journal::CountJournal;
pub use lqh::Lqh;
pub use request::{Marker, Request};
pub use views::is_coordinated;
