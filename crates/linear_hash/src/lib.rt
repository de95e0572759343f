//! A hash index that grows a bucket at a time: places by keys, by linear hashing.
#![tactic(auto)]

mod bucket;
mod buckets;
mod entry;
mod growth;
mod index;

pub use index::Index;
