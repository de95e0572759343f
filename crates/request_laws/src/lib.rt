//! What coordinators and rows have of transactions, view by view, whatever stops and is cut off.
#![tactic(auto)]

mod phase_laws;
mod replica_laws;
mod route_laws;
mod stray_laws;
mod token_laws;
mod way_laws;

pub use phase_laws::coordinators_stand;
pub use replica_laws::{
    attended_one_by_one, keys_follow_events, rows_of_members_are_well, waiters_have_requests,
};
pub use route_laws::{signals_are_routed, takeovers_are_of_orphans};
pub use stray_laws::{
    coordinators_have_the_number, fences_spare_no_strays, installations_spare_no_strays,
};
pub use token_laws::{nothing_else_is_under_way, one_at_a_time};
pub use way_laws::transactions_go_one_way;
