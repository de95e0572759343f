//! Lists of signals to send.
ghost use Rattle.std.specs.Prelude.{◌≡◌, ◌≤◌, ◌+◌, ◌++◌, IfOk, OnOk, [], ◌∷◌, length, map};
ghost use Rattle.sig_core.specs.Step.{joined, sends_only, to_place};
ghost use Rattle.qmgr_block.specs.Propose.{request_of, stop_of, stop_sends};

use crate::sets::{members_of, without};
use sig_core::{
    Body, Held, Member, Members, MembershipSignal, NoMemory, Outgoing, Outs, StopCause, View,
    membership,
};
use std::alloc::Global;

/// A list of one signal for the membership of a node.
///
/// # Errors
/// `NoMemory`.
pub fn one_signal(alloc: Global, outgoing: Outgoing) -> Result<Vec<Outgoing>, NoMemory>
    ensures { IfOk result (λ sends. sends.items ≡ outgoing ∷ []) }
{
    let sends = Vec::from_array(alloc, [outgoing])?;
    Ok(sends)
}

/// Each of the members is asked to promise the view.
///
/// # Errors
/// `NoMemory`.
#[tactic(auto, using(crate::proofs::SendLemmas::lists))]
pub fn requests(alloc: Global, members: &Members, view: &View) -> Result<Vec<Outgoing>, NoMemory>
    ensures { IfOk result (λ sends. sends.items ≡ map (request_of view.now) members.now) }
{
    let held = Held::new(alloc, *view)?;
    let mut sends = Vec::new(alloc);
    for member in members.as_slice() {
        add_request(&held, member, &mut sends)?;
    }
    Ok(sends)
}

// A member is asked to promise the view, behind what is sent so far.
fn add_request(
    view: &Held<View>,
    member: &Member,
    sends: &mut Vec<Outgoing>,
) -> Result<(), NoMemory>
    ensures { OnOk result (sends.new.items ≡ sends.old.items ++ request_of view.now member.now ∷ []) }
{
    let proposal = view.share()?;
    let body = Body::Membership(MembershipSignal::PrepFailReq { proposal });
    sends.push(Outgoing {
        to: membership(member.node),
        body,
    })?;
    Ok(())
}

/// Sends all of a list that the event has room for.
pub fn send_all(sends: Vec<Outgoing>, out: &mut Outs)
    requires { length out.old.sends + length sends.items ≤ 16 }
    ensures { out.new ≡ joined out.old (sends_only sends.items) }
{
    for send in sends {
        out.send(send.to, send.body);
    }
}

/// Orders all members of a view to stop, the node itself last.
#[tactic(auto, unfolding(crate::specs::Propose::stop_sends), using(crate::proofs::SendLemmas::lists))]
pub fn send_stops(me: &Member, view: &View, cause: StopCause, out: &mut Outs)
    requires { length out.old.sends + 12 ≤ 16 }
    ensures { out.new ≡ joined out.old (sends_only (stop_sends me.now view.now cause)) }
{
    let others = without(&members_of(view), &[*me]);
    send_stops_to(&others, cause, out);
    out.send(
        membership(me.node),
        Body::Membership(MembershipSignal::StopSet { cause }),
    );
}

// Orders each of the members to stop.
#[tactic(auto, using(crate::proofs::SendLemmas::lists))]
fn send_stops_to(members: &Members, cause: StopCause, out: &mut Outs)
    requires { length out.old.sends + 12 ≤ 16 }
    ensures value { out.new ≡ joined out.old (sends_only (map (stop_of cause) members.now)) }
    ensures fits { length out.new.sends ≤ length out.old.sends + 8 }
{
    for member in members.as_slice() {
        out.send(
            membership(member.node),
            Body::Membership(MembershipSignal::StopSet { cause }),
        );
    }
}
