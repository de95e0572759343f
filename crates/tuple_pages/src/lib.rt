//! Rows by places: the least free place is the next to be taken.
#![tactic(auto)]

mod page;
mod pages;

pub use page::PAGE_SLOTS;
pub use pages::Pages;
