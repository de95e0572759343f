//! The members of the view, and what they are told.
ghost use Rattle.std.specs.Prelude.{◌≡◌, ◌+◌, ◌-◌, ◌≤◌, length, take};
ghost use Rattle.std.specs.List.{list_any};
ghost use Rattle.sig_core.specs.Step.{joined, sends_only};
ghost use Rattle.api_block.specs.Members.{everyone, is_at, is_full, least_from, least_node, lesser, news_body};
ghost use Rattle.api_block.specs.Members.{telling_all};

use sig_core::{Body, ClientSignal, HostSignal, Member, Outs, TxId, View, rows_of};

/// How many members are told something in one step, at most.
pub const TOLD: usize = 12;

/// What the rows of every member are told.
#[derive(Clone, Copy)]
pub enum News {
    /// A round of time has passed.
    Round,
    /// The client knows that this transaction is committed.
    Committed(TxId),
}

/// Whether the node has a full member.
pub fn is_full(view: &View, node: u8) -> bool
    ensures { result ≡ is_full view.now node }
{
    view.full.as_slice().iter().any(|m| is_at(node, m))
}

fn is_at(node: u8, member: &Member) -> bool
    ensures { result ≡ is_at node member.now }
{
    member.node == node
}

/// The least node that has a full member.
#[tactic(auto, unfolding(crate::specs::Members::least_node))]
pub fn least_node(view: &View) -> Option<u8>
    ensures { result ≡ least_node view.now.full }
{
    match view.full.as_slice() {
        [] => None,
        [first, members @ ..] => Some(least_from(first.node, members)),
    }
}

// The least node, of these and one more.
fn least_from(node: u8, members: &[Member]) -> u8
    ensures { result ≡ least_from node members.now }
{
    let mut least = node;
    for member in members {
        least = lesser(least, member.node);
    }
    least
}

fn lesser(least: u8, node: u8) -> u8
    ensures { result ≡ lesser least node }
{
    if node < least { node } else { least }
}

/// Tells the rows of every full member, and then of every starting one, of at most 12 in all.
#[tactic(auto, unfolding(crate::specs::Members::everyone), using(crate::proofs::MemberLemmas::told))]
pub fn tell_everyone(view: &View, news: News, out: &mut Outs)
    requires { length out.old.sends + 12 ≤ 16 }
    ensures { out.new ≡ joined out.old (sends_only (telling_all news (everyone view.now))) }
{
    let full = view.full.as_slice();
    tell(full, news, out);
    tell(
        first(view.starting.as_slice(), TOLD - full.len()),
        news,
        out,
    );
}

// The first few members.
fn first(members: &[Member], most: usize) -> &[Member]
    ensures { result.now ≡ take most members.now }
{
    if members.len() > most {
        &members[..most]
    } else {
        members
    }
}

// Tells the rows of these members.
#[tactic(auto, using(crate::proofs::MemberLemmas::told))]
fn tell(members: &[Member], news: News, out: &mut Outs)
    requires { length out.old.sends + length members.now ≤ 16 }
    ensures { out.new ≡ joined out.old (sends_only (telling_all news members.now)) }
{
    for member in members {
        out.send(rows_of(member.node), news_body(news));
    }
}

fn news_body(news: News) -> Body
    ensures { result ≡ news_body news }
{
    match news {
        News::Round => Body::Host(HostSignal::Round),
        News::Committed(tx) => Body::Client(ClientSignal::TcCommitAck { tx }),
    }
}
