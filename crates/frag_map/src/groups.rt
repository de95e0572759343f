//! Groups of nodes in a view.
ghost use Rattle.std.specs.Prelude.{◌≡◌};
ghost use Rattle.frag_map.specs.Groups.{is_manned, is_whole, lost_group, whole_group};
ghost use Rattle.frag_map.specs.Replicas.{is_of_group};
ghost use Rattle.frag_map.specs.Shape.{IsShape};

use crate::shape::{group_of, groups};
use sig_core::{Member, Shape, View};

/// The least group without a full member, from 0. A view that has none is viable.
#[tactic(auto, unfolding(crate::specs::Groups::lost_group), using(crate::proofs::GroupLemmas::left))]
pub fn lost_group(view: &View, shape: &Shape) -> Option<u8>
    requires { IsShape shape.now }
    ensures { result ≡ lost_group shape.now view.now }
{
    for group in 0..groups(shape) {
        if !is_manned(view, group, shape) {
            return Some(group);
        }
    }
    None
}

/// Whether all nodes of some group are full members.
#[tactic(auto, unfolding(crate::specs::Groups::whole_group), using(crate::proofs::GroupLemmas::left))]
pub fn whole_group(view: &View, shape: &Shape) -> bool
    requires { IsShape shape.now }
    ensures { result ≡ whole_group shape.now view.now }
{
    for group in 0..groups(shape) {
        if is_whole(view, group, shape) {
            return true;
        }
    }
    false
}

// Whether the group has a full member.
fn is_manned(view: &View, group: u8, shape: &Shape) -> bool
    requires { IsShape shape.now }
    ensures { result ≡ is_manned shape.now view.now group }
{
    for member in view.full.as_slice() {
        if is_of_group(*member, group, shape) {
            return true;
        }
    }
    false
}

// Whether all nodes of the group are full members.
fn is_whole(view: &View, group: u8, shape: &Shape) -> bool
    requires { IsShape shape.now }
    ensures { result ≡ is_whole shape.now view.now group }
{
    let mut count = 0;
    for member in view.full.as_slice() {
        if is_of_group(*member, group, shape) {
            count += 1;
        }
    }
    shape.replicas <= count
}

/// Whether the member is of the group.
pub fn is_of_group(member: Member, group: u8, shape: &Shape) -> bool
    requires { IsShape shape.now }
    ensures { result ≡ is_of_group shape.now group member }
{
    group_of(member.node, shape) == group
}
