//! Local checkpoints: the committed rows of a node, written place by place while transactions go on.
#![tactic(auto)]

mod ckpt;
mod laws;
mod passing;

pub use ckpt::Ckpt;
pub use laws::{checkpoints_restore, orderly_rows_stay_so, pieces_lie_in_order, walks_may_begin};
