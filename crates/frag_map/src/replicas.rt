//! The replicas of a fragment in a view, the primary first.
ghost use Rattle.std.specs.Prelude.{◌≡◌, ◌<◌, ◌≤◌, [], ◌∷◌, ◌++◌, filter, length, take};
ghost use Rattle.std.specs.List.{list_any};
ghost use Rattle.frag_map.specs.Replicas.{first_start, in_turn, is_later_of_group, is_member, is_of_group};
ghost use Rattle.frag_map.specs.Replicas.{node_in_turn, replicas_of};
ghost use Rattle.frag_map.specs.Fragment.{group_of_fragment};
ghost use Rattle.frag_map.specs.Shape.{IsShape};

use crate::fragment::group_of_fragment;
use crate::groups::is_of_group;
use crate::shape::groups;
use sig_core::{MEMBERS, Member, Members, Shape, View};

/// The replicas of a fragment, the primary first: of the nodes of its group those that are full
/// members since the life began, in turn; then the other full ones, and then the starting ones,
/// each by age.
#[tactic(auto, unfolding(crate::specs::Replicas::replicas_of), using(crate::proofs::ListLemmas::lists))]
pub fn replicas_of(view: &View, fragment: u8, shape: &Shape) -> Members
    requires shape { IsShape shape.now }
    requires fragment { fragment < shape.now.fragments }
    ensures { result ≡ replicas_of shape.now view.now fragment }
{
    let group = group_of_fragment(fragment, shape);
    let mut replicas = members_in_turn(view, fragment, shape);
    add_later(&mut replicas, &view.full, group, shape);
    add_group(&mut replicas, &view.starting, group, shape);
    replicas
}

// The node whose turn it is, of a fragment of this group.
#[tactic(auto, using(crate::proofs::ShapeLemmas::seats))]
fn node_in_turn(turn: u8, fragment: u8, shape: &Shape) -> u8
    requires shape { IsShape shape.now }
    requires fragment { fragment < shape.now.fragments }
    requires turn { turn < shape.now.replicas }
    ensures { result ≡ node_in_turn shape.now fragment turn }
{
    let seat = (turn + fragment / groups(shape)) % shape.replicas;
    group_of_fragment(fragment, shape) * shape.replicas + seat + 1
}

// The nodes of a fragment's group that are full members since the life began, in turn.
#[tactic(auto, using(crate::proofs::ListLemmas::lists))]
fn members_in_turn(view: &View, fragment: u8, shape: &Shape) -> Members
    requires shape { IsShape shape.now }
    requires fragment { fragment < shape.now.fragments }
    ensures { result ≡ take 8 (in_turn shape.now view.now fragment shape.now.replicas) }
{
    let mut replicas = Members::new();
    for turn in 0..shape.replicas {
        let node = node_in_turn(turn, fragment, shape);
        let member = Member { node, start: 0 };
        if is_among(member, &view.full) {
            add(&mut replicas, member);
        }
    }
    replicas
}

// Whether the members have this one.
fn is_among(member: Member, members: &Members) -> bool
    ensures { result ≡ list_any (is_member member) members.now }
{
    members
        .as_slice()
        .iter()
        .any(|other| is_same(member, other))
}

fn is_same(one: Member, other: &Member) -> bool
    ensures { result ≡ is_member one other.now }
{
    one.node == other.node && one.start == other.start
}

// Adds those of the group that started later than the life.
#[tactic(auto, using(crate::proofs::ListLemmas::lists))]
fn add_later(replicas: &mut Members, full: &Members, group: u8, shape: &Shape)
    requires few { length replicas.old ≤ 8 }
    requires shape { IsShape shape.now }
    ensures { replicas.new ≡ take 8 (replicas.old ++ filter (is_later_of_group shape.now group) full.now) }
{
    for member in full.as_slice() {
        if is_later_of_group(*member, group, shape) {
            add(replicas, *member);
        }
    }
}

// Whether the member is of the group, and started later than the life.
fn is_later_of_group(member: Member, group: u8, shape: &Shape) -> bool
    requires { IsShape shape.now }
    ensures { result ≡ is_later_of_group shape.now group member }
{
    is_of_group(member, group, shape) && 0 < member.start
}

// Adds those of the group.
#[tactic(auto, using(crate::proofs::ListLemmas::lists))]
fn add_group(replicas: &mut Members, starting: &Members, group: u8, shape: &Shape)
    requires few { length replicas.old ≤ 8 }
    requires shape { IsShape shape.now }
    ensures { replicas.new ≡ take 8 (replicas.old ++ filter (is_of_group shape.now group) starting.now) }
{
    for member in starting.as_slice() {
        if is_of_group(*member, group, shape) {
            add(replicas, *member);
        }
    }
}

// Adds a member, where there is room.
#[tactic(auto, using(crate::proofs::ListLemmas::lists))]
fn add(replicas: &mut Members, member: Member)
    ensures { replicas.new ≡ take 8 (replicas.old ++ member ∷ []) }
{
    if replicas.as_slice().len() < MEMBERS {
        replicas.push(member);
    }
}
