//! The hosts of a cluster whose nodes may fail: what a host does at a signal before its blocks see it,
//! and the parts of a node, each with its blocks.
#![tactic(auto)]

mod fence;
mod host_body;
mod laws;
mod ldm_part;
mod main_part;
mod parts;
mod saving;
mod shell_part;
mod standing;
mod tc_part;
mod well_formed;

pub use host_body::HostBody;
pub use laws::{
    calm_hosts_leave_it_to_blocks, hosts_keep_to_their_words, installed_views_give_walks_up,
    malformed_signals_change_nothing, marks_tell_of_stops, stopping_hosts_are_silent,
};
pub use ldm_part::LdmPart;
pub use main_part::MainPart;
pub use parts::Parts;
pub use shell_part::ShellPart;
pub use standing::Standing;
pub use tc_part::TcPart;
pub use well_formed::is_well_formed;
