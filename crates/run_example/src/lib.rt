//! Two hosts that play ping pong, and a third that is made later: a small machine, with a law over all its closed cuts.
#![tactic(auto)]

mod game;
mod game_laws;

pub use game::{Kind, Signal, Step};
pub use game_laws::{game_has_runs, game_logs_are_a_run, pongs_answer_pings};
