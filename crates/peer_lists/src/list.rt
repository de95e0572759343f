//! Lists of peers.
ghost use Rattle.std.specs.Prelude.{◌≡◌, ◌<◌, length, map, IfSome, OnOk, OnErr};
ghost use Rattle.peer_lists.specs.Peers.{AreSameLinks, delivered, held_for, own_of, place_of, placed, sent_to};
ghost use Rattle.peer_lists.specs.Peers.{taken_from};

use crate::backlog::Backlog;
use crate::peer::Peer;
use crate::sending::Sending;
use sig_core::{HostId, NoMemory};
use std::alloc::Global;
use std::collections::VecDeque;

/// The place of the first peer that is this host.
pub fn find<P: Peer>(peers: &[P], host: HostId) -> Option<usize>
    ensures place { result ≡ place_of P.state_of peers.now host.0 }
    ensures inside { IfSome result (λ at. at < length peers.now) }
{
    peers.iter().position(|peer| peer.host().0 == host.0)
}

/// How many signals went into the link to a host; 0 where it is no peer.
pub fn sent_to<P: Peer>(peers: &[P], host: HostId) -> u64
    ensures { result ≡ length (sent_to (map P.state_of peers.now) host.0) }
{
    match find(peers, host) {
        Some(at) => peers[at].sent(),
        None => 0,
    }
}

/// How many signals came out of the link from a host; 0 where it is no peer.
pub fn taken_from<P: Peer>(peers: &[P], host: HostId) -> u64
    ensures { result ≡ length (taken_from (map P.state_of peers.now) host.0) }
{
    match find(peers, host) {
        Some(at) => peers[at].taken(),
        None => 0,
    }
}

/// How many signals wait to go into the link to a host; 0 where it is no peer.
pub fn held_for<P: Peer>(peers: &[P], host: HostId) -> usize
    ensures { result ≡ length (held_for (map P.state_of peers.now) host.0) }
{
    match find(peers, host) {
        Some(at) => peers[at].held(),
        None => 0,
    }
}

/// Sends a signal to the peer that it is for. What is for nobody is dropped.
///
/// # Errors
/// `NoMemory`, and then nothing has changed.
pub fn place<P: Peer>(alloc: Global, peers: &mut [P], sending: Sending) -> Result<(), NoMemory>
    ensures ok { OnOk result (map P.state_of peers.new ≡ placed sending (map P.state_of peers.old)) }
    ensures err { OnErr result (map P.state_of peers.new ≡ map P.state_of peers.old) }
{
    let Sending { to, signal } = sending;
    match find(peers, to) {
        Some(at) => peers[at].send(alloc, signal),
        None => Ok(()),
    }
}

/// Delivers what a host sends, one signal after the other: what is for itself goes into its own
/// queue, and all else to the peers that it is for.
///
/// # Errors
/// `NoMemory`, and then some of it may wait already; what is in the links is as it was.
pub fn deliver<P: Peer>(
    alloc: Global,
    host: HostId,
    own: &mut Backlog,
    peers: &mut [P],
    mut sends: VecDeque<Sending>,
) -> Result<(), NoMemory>
    ensures own { OnOk result (own.new ≡ own_of host.0 sends.items own.old) }
    ensures peers { OnOk result (map P.state_of peers.new ≡ delivered host.0 sends.items (map P.state_of peers.old)) }
    ensures links { OnErr result (AreSameLinks (map P.state_of peers.old) (map P.state_of peers.new)) }
{
    while let Some(sending) = sends.pop_front() {
        if sending.to.0 == host.0 {
            own.push(alloc, sending.signal)?;
        } else {
            place(alloc, peers, sending)?;
        }
    }
    Ok(())
}
