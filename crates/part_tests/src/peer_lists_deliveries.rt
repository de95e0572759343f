//! Lists of peers with no links: who gets what, and with which number.
use crate::wrong::Wrong;
use peer_lists::{Backlog, Peer, Sending, deliver, find, held_for, place, sent_to, taken_from};
use sig_core::{
    Body, Boxed, CLIENT, Held, HostId, HostSignal, Member, Members, NoMemory, Seq, Signal, View,
};
use std::alloc::Global;
use std::collections::VecDeque;

const NOBODY: Member = Member { node: 0, start: 0 };

// The host that sends.
const OWN: HostId = HostId(1);

// A peer whose links have room for all.
#[derive(Drop)]
struct Plain {
    host: HostId,
    sent: Seq<Boxed<Signal>>,
    taken: Seq<Boxed<Signal>>,
    waiting: Backlog,
    shut: bool,
}

impl Peer for Plain {
    ghost state_of = { λ p. record { host = p.host.0; sent = p.sent; taken = p.taken; waiting = p.waiting; shut = p.shut } };

    fn host(&self) -> HostId {
        self.host
    }

    fn sent(&self) -> u64 {
        self.sent.len() as u64
    }

    fn taken(&self) -> u64 {
        self.taken.len() as u64
    }

    fn held(&self) -> usize {
        self.waiting.len()
    }

    fn send(&mut self, alloc: Global, signal: Signal) -> Result<(), NoMemory> {
        if self.shut {
            self.waiting.skip();
            return Ok(());
        }
        self.waiting.push(alloc, signal)
    }
}

fn peer_of(alloc: Global, host: u32, shut: bool) -> Plain {
    Plain {
        host: HostId(host),
        sent: Seq::new(alloc),
        taken: Seq::new(alloc),
        waiting: Backlog::new(alloc),
        shut,
    }
}

// Hosts 2, 3 and 4, of which the last has shut its links.
fn three_peers(alloc: Global) -> Result<Vec<Plain>, NoMemory> {
    let mut peers = Vec::new(alloc);
    peers.push(peer_of(alloc, 2, false))?;
    peers.push(peer_of(alloc, 3, false))?;
    peers.push(peer_of(alloc, 4, true))?;
    Ok(peers)
}

// A signal with this stamp, whose number isn't given yet.
fn stamped(alloc: Global, stamp: u64) -> Result<Signal, NoMemory> {
    let view = View {
        number: 1,
        full: Members::new(),
        starting: Members::new(),
    };
    Ok(Signal {
        from: OWN,
        member: NOBODY,
        to: CLIENT,
        seq: 77,
        stamp,
        view: Held::new(alloc, view)?,
        body: Body::Host(HostSignal::Round),
    })
}

// A signal to each of these hosts, with the stamps from 10 on.
fn sends_to(alloc: Global, hosts: &[u32]) -> Result<VecDeque<Sending>, NoMemory> {
    let mut sends = VecDeque::new(alloc);
    let mut stamp = 10u64;
    for host in hosts {
        let signal = stamped(alloc, stamp)?;
        let to = HostId(*host);
        sends.push_back(Sending { to, signal })?;
        stamp = stamp.saturating_add(1);
    }
    Ok(sends)
}

// Whether what waits has these stamps and numbers, the oldest first.
fn drains(waiting: &mut Backlog, wanted: &[(u64, u64)]) -> bool {
    for (stamp, seq) in wanted {
        match waiting.take() {
            Some(signal) if signal.get().stamp == *stamp && signal.get().seq == *seq => {}
            _ => return false,
        }
    }
    waiting.take().is_none()
}

// Whether so much is held for each of the hosts 2, 3, 4 and 9.
fn hold(peers: &[Plain], wanted: [usize; 4]) -> bool {
    held_for(peers, HostId(2)) == wanted[0]
        && held_for(peers, HostId(3)) == wanted[1]
        && held_for(peers, HostId(4)) == wanted[2]
        && held_for(peers, HostId(9)) == wanted[3]
}

// Whether what waits for the peer at a place has these stamps and numbers, the oldest first.
fn peer_drains(peers: &mut [Plain], at: usize, wanted: &[(u64, u64)]) -> bool {
    match peers.get_mut(at) {
        Some(peer) => drains(&mut peer.waiting, wanted),
        None => false,
    }
}

#[test]
fn each_peer_gets_its_own(rt: HostRuntime) -> Result<(), Wrong> {
    let alloc = rt.alloc();
    let mut peers = three_peers(alloc)?;
    let mut own = Backlog::new(alloc);
    let sends = sends_to(alloc, &[2, 3, 1, 2, 9, 4, 2])?;
    deliver(alloc, OWN, &mut own, peers.as_mut_slice(), sends)?;
    assert!(rt; hold(peers.as_slice(), [3, 1, 0, 0]));
    assert!(rt; peer_drains(peers.as_mut_slice(), 0, &[(10, 0), (13, 1), (16, 2)]));
    assert!(rt; drains(&mut own, &[(12, 0)]));
    Ok(())
}

// Places signals with the stamps 5, 6 and 7, of which host 4 gets that of 6, and host 3 the others.
fn place_three(alloc: Global, peers: &mut [Plain]) -> Result<(), NoMemory> {
    for stamp in 5..8 {
        let signal = stamped(alloc, stamp)?;
        let to = HostId(if stamp == 6 { 4 } else { 3 });
        place(alloc, peers, Sending { to, signal })?;
    }
    Ok(())
}

// Whether the peer at a place has numbered so many, and holds so many.
fn has_numbered(peers: &[Plain], at: usize, numbered: u64, held: usize) -> bool {
    match peers.get(at) {
        Some(peer) => peer.waiting.numbered() == numbered && peer.held() == held,
        None => false,
    }
}

#[test]
fn numbers_go_on(rt: HostRuntime) -> Result<(), Wrong> {
    let mut peers = three_peers(rt.alloc())?;
    place_three(rt.alloc(), peers.as_mut_slice())?;
    assert!(rt; peer_drains(peers.as_mut_slice(), 1, &[(5, 0), (7, 1)]));
    assert!(rt; has_numbered(peers.as_slice(), 1, 2, 0));
    assert!(rt; has_numbered(peers.as_slice(), 2, 1, 0));
    Ok(())
}

// Peers of which the second was sent two signals and took one.
fn linked_peers(alloc: Global) -> Result<Vec<Plain>, NoMemory> {
    let mut second = peer_of(alloc, 3, false);
    second.sent.push(Boxed::new(alloc, stamped(alloc, 1)?)?)?;
    second.sent.push(Boxed::new(alloc, stamped(alloc, 2)?)?)?;
    second.taken.push(Boxed::new(alloc, stamped(alloc, 3)?)?)?;
    let mut peers = Vec::new(alloc);
    peers.push(peer_of(alloc, 2, false))?;
    peers.push(second)?;
    peers.push(peer_of(alloc, 4, true))?;
    Ok(peers)
}

fn are_found(peers: &[Plain]) -> bool {
    find(peers, HostId(4)) == Some(2) && find(peers, OWN).is_none()
}

fn have_passed(peers: &[Plain]) -> bool {
    sent_to(peers, HostId(3)) == 2
        && taken_from(peers, HostId(3)) == 1
        && sent_to(peers, HostId(2)) == 0
        && taken_from(peers, HostId(7)) == 0
}

#[test]
fn links_are_found_by_their_hosts(rt: HostRuntime) -> Result<(), Wrong> {
    let peers = linked_peers(rt.alloc())?;
    assert!(rt; are_found(peers.as_slice()));
    assert!(rt; have_passed(peers.as_slice()));
    Ok(())
}

fn is_left_numbered(waiting: &mut Backlog, numbered: u64) -> bool {
    waiting.len() == 0 && waiting.numbered() == numbered && waiting.take().is_none()
}

#[test]
fn what_waits_may_be_dropped(rt: HostRuntime) -> Result<(), Wrong> {
    let alloc = rt.alloc();
    let mut waiting = Backlog::new(alloc);
    waiting.push(alloc, stamped(alloc, 1)?)?;
    waiting.push(alloc, stamped(alloc, 2)?)?;
    waiting.clear();
    assert!(rt; is_left_numbered(&mut waiting, 2));
    Ok(())
}
