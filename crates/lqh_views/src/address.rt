//! Who is told of the end of a transaction's part in a row.
ghost use Rattle.std.specs.Prelude.{◌≡◌, ◌+◌, ◌++◌, ◌≤◌, [], length};
ghost use Rattle.sig_core.specs.Step.{nothing};
ghost use Rattle.lqh_views.specs.Address.{about, addressed, addressed_behind, ended, goes_straight, next_of};
ghost use Rattle.lqh_views.specs.Address.{to_takeover};

use lqh_block::is_coordinated;
use sig_core::{Body, ChainSignal, Member, Outgoing, Outs, TxId, View, takeover};

// The transaction of which a signal tells that its part in a row is committed, completed or aborted.
fn about(body: &Body) -> Option<TxId>
    ensures { result ≡ about body.now }
{
    match body {
        Body::Chain(
            ChainSignal::Committed { tx, key: _ }
            | ChainSignal::Completed { tx, key: _ }
            | ChainSignal::Aborted { tx, key: _ },
        ) => Some(*tx),
        _ => None,
    }
}

// The transaction of whose part in a row the rows may tell, at a signal, that it is committed, completed
// or aborted.
fn ended(body: &Body) -> Option<TxId>
    ensures { result ≡ ended body.now }
{
    match body {
        Body::Chain(
            ChainSignal::Commit {
                tx,
                key: _,
                epoch: _,
                chain: _,
                at: _,
            }
            | ChainSignal::Complete {
                tx,
                key: _,
                chain: _,
                at: _,
            }
            | ChainSignal::Abort { tx, key: _ },
        ) => Some(*tx),
        _ => None,
    }
}

/// Whether all that the rows send at a signal goes where they send it, in this view. It does, unless they
/// may tell an end to a coordinator that isn't a full member.
pub fn goes_straight(view: &View, body: &Body) -> bool
    ensures { result ≡ goes_straight view.now body.now }
{
    match ended(body) {
        Some(tx) => is_coordinated(view.full.as_slice(), tx),
        None => true,
    }
}

// The signal, addressed in a view.
#[tactic(auto, unfolding(crate::specs::Address::addressed))]
fn address(view: &View, send: Outgoing) -> Outgoing
    ensures { result ≡ addressed view.now send }
{
    let full = view.full.as_slice();
    match about(&send.body) {
        Some(tx) if !is_coordinated(full, tx) => to_takeover(full, send),
        _ => send,
    }
}

// The signal, for the takeover of the oldest of these full members.
fn to_takeover(full: &[Member], send: Outgoing) -> Outgoing
    ensures { result ≡ to_takeover full.now send }
{
    match full.first() {
        Some(oldest) => Outgoing {
            to: takeover(oldest.node),
            body: send.body,
        },
        None => send,
    }
}

/// How many signals there are to send. The other effects are empty, before and after.
pub fn count_sends(out: &mut Outs, aside: &mut Outs) -> usize
    requires few { length out.old.sends ≤ 16 }
    requires empty { aside.old ≡ nothing }
    ensures count { result ≡ length out.old.sends }
    ensures same { out.new ≡ out.old }
    ensures empty { aside.new ≡ nothing }
{
    let count = move_sends(out, aside);
    move_sends(aside, out);
    count
}

// Moves all signals behind the others, and answers how many they are.
fn move_sends(from: &mut Outs, to: &mut Outs) -> usize
    requires { length to.old.sends + length from.old.sends ≤ 16 }
    ensures count { result ≡ length from.old.sends }
    ensures sends { to.new.sends ≡ to.old.sends ++ from.old.sends }
    ensures none { from.new.sends ≡ [] }
    ensures marks { to.new.marks ≡ to.old.marks }
    ensures from_marks { from.new.marks ≡ from.old.marks }
{
    let mut count = 0;
    while let Some(send) = from.take_send() {
        to.send(send.to, send.body);
        count += 1;
    }
    count
}

/// Addresses the signals behind the first `before` ones in a view. The other effects are empty,
/// before and after.
pub fn address_behind(view: &View, before: usize, out: &mut Outs, aside: &mut Outs)
    requires few { length out.old.sends ≤ 16 }
    requires empty { aside.old ≡ nothing }
    ensures sends { out.new.sends ≡ addressed_behind view.now before out.old.sends }
    ensures marks { out.new.marks ≡ out.old.marks }
    ensures empty { aside.new ≡ nothing }
{
    move_addressed(view, before, out, aside);
    move_sends(aside, out);
}

// Moves all signals, those behind the first ones addressed in a view.
#[tactic(auto, using(crate::proofs::AddressLemmas::addresses))]
fn move_addressed(view: &View, before: usize, from: &mut Outs, to: &mut Outs)
    requires few { length from.old.sends ≤ 16 }
    requires empty { to.old ≡ nothing }
    ensures sends { to.new.sends ≡ addressed_behind view.now before from.old.sends }
    ensures count { length to.new.sends ≡ length from.old.sends }
    ensures none { from.new.sends ≡ [] }
    ensures marks { to.new.marks ≡ [] }
    ensures from_marks { from.new.marks ≡ from.old.marks }
{
    let mut passed = before;
    while let Some(send) = from.take_send() {
        let send = next_of(view, passed, send);
        to.send(send.to, send.body);
        passed = passed.saturating_sub(1);
    }
}

// The next signal: as it is while some are still to be passed, and then addressed.
fn next_of(view: &View, passed: usize, send: Outgoing) -> Outgoing
    ensures { result ≡ next_of view.now passed send }
{
    if passed > 0 {
        send
    } else {
        address(view, send)
    }
}
