//! Sets of members, compared.
ghost use Rattle.std.specs.Prelude.{◌≡◌};
ghost use Rattle.arbiter_block.specs.Sets.{is_among, is_joining, is_same_set, lie_in, same_member};

use sig_core::{Member, Members};

// Whether the two are one member.
fn is_same(one: &Member, other: &Member) -> bool
    ensures { result ≡ same_member one.now other.now }
{
    *one == *other
}

// Whether the member is among these.
fn is_among(members: &[Member], member: &Member) -> bool
    ensures { result ≡ is_among members.now member.now }
{
    members.iter().any(|other| is_same(member, other))
}

// Whether it is the member that joins.
fn is_joining(joining: Option<Member>, member: &Member) -> bool
    ensures { result ≡ is_joining joining member.now }
{
    match joining {
        Some(joining) => is_same(&joining, member),
        None => false,
    }
}

/// Whether the members, without the one that joins, lie in this set.
#[tactic(auto, unfolding(crate::specs::Sets::lie_in))]
pub fn lie_in(set: &Members, members: &Members, joining: Option<Member>) -> bool
    ensures { result ≡ lie_in set.now members.now joining }
{
    let set = set.as_slice();
    let mut members = members.as_slice().iter();
    members.all(|member| is_joining(joining, member) || is_among(set, member))
}

/// Whether the two are the same members in the same order.
#[tactic(auto, unfolding(crate::specs::Sets::is_same_set))]
pub fn is_same_set(one: &Members, other: &Members) -> bool
    ensures { result ≡ is_same_set one.now other.now }
{
    one.as_slice() == other.as_slice()
}
