//! Chains: the replicas of a row, the primary first.
ghost use Rattle.std.specs.Prelude.{◌≡◌, ◌≤◌, length, map};
ghost use Rattle.sig_core.specs.declared.member.Member.{Member};
ghost use Rattle.sig_core.specs.Chain.{last_place, node_at, primary_of};

use crate::member::Member;
use crate::members::{MEMBERS, Members};
use std::marker::Model;

/// The replicas of a row, the primary first, in the room that they take in a signal. Contracts see
/// the list of them.
#[derive(Drop)]
pub struct Chain {
    nodes: [u8; 8],
    starts: [u32; 8],
    len: u8,
}

impl Model for Chain {
    ghost use Rattle.std.specs.Prelude.{◌≤◌, List, take};
    ghost use Rattle.sig_core.specs.declared.member.Member.{Member};
    ghost use Rattle.sig_core.specs.Chain.{members_by};

    ghost Value = { List Member };

    ghost view = { λ c. members_by (take c.len c.nodes) (take c.len c.starts) };

    ghost invariant = { λ c. c.len ≤ 8 };
}

impl Chain {
    /// The chain of these replicas.
    pub fn of(replicas: &Members) -> Chain
        ensures { result ≡ replicas.now }
    {
        let mut nodes = [0; MEMBERS];
        let mut starts = [0; MEMBERS];
        let mut len = 0;
        for replica in replicas.as_slice() {
            nodes[len] = replica.node;
            starts[len] = replica.start;
            len += 1;
        }
        Chain {
            nodes,
            starts,
            len: len as u8,
        }
    }

    /// The same chain once more.
    pub fn share(&self) -> Chain
        ensures { result ≡ self.now }
    {
        Chain {
            nodes: self.nodes,
            starts: self.starts,
            len: self.len,
        }
    }

    /// The nodes of the replicas.
    pub fn nodes(&self) -> &[u8]
        ensures value { result.now ≡ map (λ (replica : Member). replica.node) self.now }
        ensures most { length result.now ≤ 8 }
    {
        &self.nodes[..self.len as usize]
    }

    /// The node at a place. 0, which has no rows, where the chain has no such place.
    pub fn node_at(&self, at: usize) -> u8
        ensures { result ≡ node_at self.now at }
    {
        match self.nodes().get(at) {
            Some(node) => *node,
            None => 0,
        }
    }

    /// The replicas.
    pub fn members(&self) -> Members
        ensures { result ≡ self.now }
    {
        let mut members = Members::new();
        for at in 0..self.len as usize {
            members.push(Member {
                node: self.nodes[at],
                start: self.starts[at],
            });
        }
        members
    }
}

/// The primary of a chain, alone.
pub fn primary_of(chain: &Members) -> Members
    ensures { result ≡ primary_of chain.now }
{
    match chain.as_slice().first().copied() {
        Some(member) => {
            let mut primary = Members::new();
            primary.push(member);
            primary
        }
        None => Members::new(),
    }
}

/// The node at a place of a chain. 0, which has no rows, where the chain has no such place.
pub fn node_at(chain: &Members, at: usize) -> u8
    ensures { result ≡ node_at chain.now at }
{
    match chain.as_slice().get(at).copied() {
        Some(member) => member.node,
        None => 0,
    }
}

/// The last place of a chain; 0 where it is empty.
pub fn last_place(chain: &Members) -> u8
    ensures { result ≡ last_place chain.now }
{
    chain.as_slice().len().saturating_sub(1) as u8
}
