//! The master of a cluster's epochs: it closes them, makes them durable, and drives local checkpoints.
#![tactic(auto)]

mod begin;
mod closing;
mod known;
mod laws;
mod local;
mod master;
mod numbers;
mod orders;
mod phase;
mod requests;
mod resume;
mod sends;
mod voices;

pub use known::{Known, Told};
pub use laws::{
    keeps_to_its_words, outsiders_confirm_nothing, requests_are_kept, twice_confirmed_counts_once,
};
pub use local::{Local, LocalStage};
pub use master::GcpMaster;
pub use numbers::{MICROS, next_global, next_micro};
pub use orders::{Ended, Order};
pub use phase::{Asked, Phase, Run};
pub use voices::{VOICES, Voice, Voices};
