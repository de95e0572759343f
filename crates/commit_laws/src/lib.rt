//! How far commits and aborts have come, whatever stops and is cut off.
#![tactic(auto)]

mod cut_laws;
mod fate_laws;
mod knowing_laws;
mod once_laws;

pub use cut_laws::{
    aborts_take_none, commits_take_effect, histories_are_legal, records_agree, resting_rows_follow,
};
pub use fate_laws::{all_stands_together, fates_are_settled, lost_ones_stay_lost};
pub use knowing_laws::{commits_are_remembered, known_commits_went_forth};
pub use once_laws::keys_are_driven_once;
