//! Which nodes have which rows: fragments of the keys, groups of the nodes, and the replicas of a
//! fragment in a view.
#![tactic(auto)]

mod fragment;
mod groups;
mod laws;
mod layout;
mod replicas;
mod shape;

pub use fragment::{frag_of, holds};
pub use groups::{lost_group, whole_group};
pub use laws::{
    first_view_is_viable, group_has_all_replicas, replicas_are_apart, replicas_are_of_the_group,
};
pub use layout::{Layout, first_view};
pub use replicas::replicas_of;
pub use shape::{group_of, is_shape};
