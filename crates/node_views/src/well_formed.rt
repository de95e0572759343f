//! Which signals are well formed in a cluster of a shape.
ghost use Rattle.std.specs.List.{list_all};
ghost use Rattle.std.specs.Prelude.{◌≡◌};
ghost use Rattle.node_views.specs.WellFormed.{are_nodes, is_chain, is_client_sound, is_copying_sound, is_epoch_sound};
ghost use Rattle.node_views.specs.WellFormed.{is_chain_sound, is_host_sound, is_joining_sound, is_mask, is_member};
ghost use Rattle.node_views.specs.WellFormed.{is_membership_sound, is_node, is_number, is_sender};
ghost use Rattle.node_views.specs.WellFormed.{is_subscription_sound, is_takeover_sound, is_unique_sound, is_tx};
ghost use Rattle.node_views.specs.WellFormed.{is_ahead, is_view, is_body_sound, is_well_formed};

use sig_core::{
    Body, Chain, ChainSignal, ClientSignal, CopyingSignal, EpochSignal, HostSignal, JoiningSignal,
    Member, MembershipSignal, Shape, Signal, SubscriptionSignal, TakeoverSignal, TxId,
    UniqueSignal, View, Work,
};

// A node of the cluster.
fn is_node(shape: &Shape, node: u8) -> bool
    ensures { result ≡ is_node shape.now node }
{
    1 <= node && node <= shape.nodes
}

fn is_member(shape: &Shape, member: &Member) -> bool
    ensures { result ≡ is_member shape.now member.now }
{
    is_node(shape, member.node)
}

fn are_nodes(shape: &Shape, members: &[Member]) -> bool
    ensures { result ≡ are_nodes shape.now members.now }
{
    members.iter().all(|member| is_member(shape, member))
}

// A number that a view may have: there is one above it.
fn is_number(number: u64) -> bool
    ensures { result ≡ is_number number }
{
    number < u64::MAX
}

fn is_view(shape: &Shape, view: &View) -> bool
    ensures { result ≡ is_view shape.now view.now }
{
    is_number(view.number)
        && are_nodes(shape, view.full.as_slice())
        && are_nodes(shape, view.starting.as_slice())
}

// A transaction of a coordinator.
fn is_tx(shape: &Shape, tx: TxId) -> bool
    ensures { result ≡ is_tx shape.now tx }
{
    is_node(shape, tx.tc)
}

// Who holds a lock: a transaction of a coordinator, or the copying of rows.
fn is_ahead(shape: &Shape, tx: TxId) -> bool
    ensures { result ≡ is_ahead shape.now tx }
{
    tx.tc <= shape.nodes
}

// A chain, and a place in it.
#[tactic(auto, using(crate::proofs::NodeLemmas::chain_nodes))]
fn is_chain(shape: &Shape, chain: &Chain, at: u8) -> bool
    ensures { result ≡ is_chain shape.now chain.now at }
{
    let nodes = chain.nodes();
    are_all_nodes(shape, nodes) && (at as usize) < nodes.len()
}

// Whether all of these are nodes of the cluster.
fn are_all_nodes(shape: &Shape, nodes: &[u8]) -> bool
    ensures { result ≡ list_all (is_node shape.now) nodes.now }
{
    nodes.iter().all(|node| is_node(shape, *node))
}

// Some nodes of the cluster, of which node n has bit n - 1.
fn is_mask(shape: &Shape, mask: u8) -> bool
    ensures { result ≡ is_mask shape.now mask }
{
    mask > 0
        && match 2u64.checked_pow(shape.nodes as u32) {
            Some(end) => (mask as u64) < end,
            None => true,
        }
}

fn is_host_sound(shape: &Shape, signal: &HostSignal) -> bool
    ensures { result ≡ is_host_sound shape.now signal.now }
{
    match signal {
        HostSignal::Cut { node, first } => is_node(shape, *node) && first.0 < u32::MAX - 1,
        HostSignal::Continue {
            work: Work::Transaction(tx),
            at: _,
        } => is_tx(shape, *tx),
        _ => true,
    }
}

fn is_client_sound(shape: &Shape, signal: &ClientSignal) -> bool
    ensures { result ≡ is_client_sound shape.now signal.now }
{
    match signal {
        ClientSignal::TcBeginConf { name: _, tx }
        | ClientSignal::TcKeyReq { tx, op: _ }
        | ClientSignal::TcKeyConf { tx, answer: _ }
        | ClientSignal::TcCommitReq { tx }
        | ClientSignal::TcCommitConf { tx, epoch: _ }
        | ClientSignal::TcCommitAck { tx }
        | ClientSignal::TcRollbackReq { tx }
        | ClientSignal::TcRollbackRep { tx, cause: _ }
        | ClientSignal::TcKeyFailConf { tx, epoch: _ }
        | ClientSignal::TcKeyFailRef { tx }
        | ClientSignal::TcWaitReq { tx }
        | ClientSignal::LqhWaitReq { tx, key: _ } => is_tx(shape, *tx),
        ClientSignal::TcWaitConf { tx, ahead } | ClientSignal::LqhWaitConf { tx, ahead } => {
            is_tx(shape, *tx) && is_ahead(shape, *ahead)
        }
        _ => true,
    }
}

fn is_chain_sound(shape: &Shape, signal: &ChainSignal) -> bool
    ensures { result ≡ is_chain_sound shape.now signal.now }
{
    match signal {
        ChainSignal::LqhKeyReq {
            tx,
            work: _,
            chain,
            at,
        } => is_tx(shape, *tx) && is_chain(shape, chain, *at),
        ChainSignal::Commit {
            tx,
            key: _,
            epoch: _,
            chain,
            at,
        } => is_tx(shape, *tx) && is_chain(shape, chain, *at),
        ChainSignal::Complete {
            tx,
            key: _,
            chain,
            at,
        } => is_tx(shape, *tx) && is_chain(shape, chain, *at),
        ChainSignal::LqhKeyConf {
            tx,
            key: _,
            answer: _,
        }
        | ChainSignal::LqhKeyRef {
            tx,
            key: _,
            cause: _,
        }
        | ChainSignal::Committed { tx, key: _ }
        | ChainSignal::Completed { tx, key: _ }
        | ChainSignal::Abort { tx, key: _ }
        | ChainSignal::Aborted { tx, key: _ } => is_tx(shape, *tx),
    }
}

fn is_membership_sound(shape: &Shape, signal: &MembershipSignal) -> bool
    ensures { result ≡ is_membership_sound shape.now signal.now }
{
    match signal {
        MembershipSignal::FailRep { suspects } => are_nodes(shape, suspects.as_slice()),
        MembershipSignal::PrepFailReq { proposal } | MembershipSignal::FenceReq { proposal } => {
            is_view(shape, proposal.get())
        }
        MembershipSignal::PrepFailRef { promised } => is_view(shape, promised.get()),
        MembershipSignal::PrepFailConf { number } | MembershipSignal::ArbitConf { number } => {
            is_number(*number)
        }
        MembershipSignal::ArbitReq {
            number,
            members,
            joining,
        } => {
            is_number(*number)
                && are_nodes(shape, members.as_slice())
                && match joining {
                    Some(member) => is_member(shape, member),
                    None => true,
                }
        }
        MembershipSignal::ArbitRef { number, members } => {
            is_number(*number) && are_nodes(shape, members.as_slice())
        }
        _ => true,
    }
}

fn is_takeover_sound(shape: &Shape, signal: &TakeoverSignal) -> bool
    ensures { result ≡ is_takeover_sound shape.now signal.now }
{
    match signal {
        TakeoverSignal::LqhTransConf {
            tx,
            key: _,
            state: _,
            epoch: _,
        } => is_tx(shape, *tx),
        _ => true,
    }
}

fn is_epoch_sound(shape: &Shape, signal: &EpochSignal) -> bool
    ensures { result ≡ is_epoch_sound shape.now signal.now }
{
    match signal {
        EpochSignal::DiVerifyReq { tx, ops: _ }
        | EpochSignal::DiVerifyConf { tx, epoch: _ }
        | EpochSignal::DiVerifyEnd { tx } => is_tx(shape, *tx),
        EpochSignal::CopyGciReq { epoch: _, mask } => is_mask(shape, *mask),
        _ => true,
    }
}

fn is_joining_sound(shape: &Shape, signal: &JoiningSignal) -> bool
    ensures { result ≡ is_joining_sound shape.now signal.now }
{
    match signal {
        JoiningSignal::StartReq { member, own: _ }
        | JoiningSignal::StartRep { member }
        | JoiningSignal::StartEnd { member }
        | JoiningSignal::StartGone { member }
        | JoiningSignal::CopyOrd { member, own: _ }
        | JoiningSignal::PromoteReq { member } => is_member(shape, member),
        JoiningSignal::DrainWait { tx } => is_tx(shape, *tx),
        _ => true,
    }
}

fn is_copying_sound(shape: &Shape, signal: &CopyingSignal) -> bool
    ensures { result ≡ is_copying_sound shape.now signal.now }
{
    match signal {
        CopyingSignal::CopyFragReq {
            member,
            fragment,
            own: _,
        } => is_member(shape, member) && *fragment < shape.fragments,
        CopyingSignal::LqhScanReq { fragment, at: _ } => *fragment < shape.fragments,
        _ => true,
    }
}

fn is_subscription_sound(shape: &Shape, signal: &SubscriptionSignal) -> bool
    ensures { result ≡ is_subscription_sound shape.now signal.now }
{
    match signal {
        SubscriptionSignal::SubData {
            epoch: _,
            fragment,
            at: _,
            changes: _,
            last: _,
        } => *fragment < shape.fragments,
        _ => true,
    }
}

fn is_unique_sound(shape: &Shape, signal: &UniqueSignal) -> bool
    ensures { result ≡ is_unique_sound shape.now signal.now }
{
    match signal {
        UniqueSignal::TcUniqueReq { tx, op: _ } | UniqueSignal::TcUniqueConf { tx, answer: _ } => {
            is_tx(shape, *tx)
        }
    }
}

fn is_body_sound(shape: &Shape, body: &Body) -> bool
    ensures { result ≡ is_body_sound shape.now body.now }
{
    match body {
        Body::Host(signal) => is_host_sound(shape, signal),
        Body::Client(signal) => is_client_sound(shape, signal),
        Body::Chain(signal) => is_chain_sound(shape, signal),
        Body::Membership(signal) => is_membership_sound(shape, signal),
        Body::Takeover(signal) => is_takeover_sound(shape, signal),
        Body::Epoch(signal) => is_epoch_sound(shape, signal),
        Body::Joining(signal) => is_joining_sound(shape, signal),
        Body::Copying(signal) => is_copying_sound(shape, signal),
        Body::Subscription(signal) => is_subscription_sound(shape, signal),
        Body::Unique(signal) => is_unique_sound(shape, signal),
        Body::Checkpoint(_) | Body::File(_) | Body::Backup(_) => true,
    }
}

// A member of the cluster, or the shell's host.
fn is_sender(shape: &Shape, member: &Member) -> bool
    ensures { result ≡ is_sender shape.now member.now }
{
    is_member(shape, member) || (member.node == 0 && member.start == 0)
}

/// Whether a signal is well formed: each node that it names is one of the cluster, 1 to `nodes`, and
/// in its header 0 with start 0 too, which is the shell's; so is the coordinator of each transaction,
/// and 0, the copying of rows, of one that holds a lock; a fragment is below `fragments`; a place of a
/// chain is in that chain; a mask names some nodes and no others; the number of a view is below
/// 2^64 - 1; and the hosts of a cut are below 2^32.
#[tactic(auto, unfolding(crate::specs::WellFormed::is_well_formed))]
pub fn is_well_formed(shape: &Shape, signal: &Signal) -> bool
    ensures { result ≡ is_well_formed shape.now signal.now }
{
    is_sender(shape, &signal.member)
        && is_view(shape, signal.view.get())
        && is_body_sound(shape, &signal.body)
}
