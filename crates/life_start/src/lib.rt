//! How a life of a cluster begins on the disks of its nodes.
#![tactic(auto)]

mod begin;
mod begun;
mod slots;

pub use begin::begin_life;
pub use begun::Begun;
