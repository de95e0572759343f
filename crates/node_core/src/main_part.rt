//! The part of a node that keeps its membership.

use sig_core::Member;

/// The main part of a node. It has no block that takes a signal, as no member fails.
#[derive(Drop)]
pub struct MainPart {
    member: Member,
}
