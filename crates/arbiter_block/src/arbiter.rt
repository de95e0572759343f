//! The arbitrator of a cluster.
ghost use Rattle.std.specs.Prelude.{◌≡◌, IsOk, OnOk, OnErr};
ghost use Rattle.sig_core.specs.Step.{HasRoom, IsTaken, IsUntouched};
ghost use Rattle.arbiter_block.specs.Arbiter.{arbit_row, arbiter_row, fresh_arbiter, is_granted};

use crate::sets::{is_same_set, lie_in};
use sig_core::{
    Actor, BlockId, Body, Member, Members, MembershipSignal, NoMemory, Outs, Place, Signal, View,
};
use std::alloc::Global;
use std::marker::Model;

/// The block of the shell's host that grants views, so that two halves of a cluster can't both go
/// on. It keeps what it granted last, and is no `Copy`: two of them could grant two sets for a
/// number.
#[derive(Drop)]
pub struct Arbiter {
    /// The greatest number that was granted.
    number: u64,
    /// The set that was granted for it.
    members: Members,
}

impl Model for Arbiter {
    ghost use Rattle.arbiter_block.specs.Arbiter.{ArbiterState};

    ghost Value = { ArbiterState };

    ghost view = { λ a. record { number = a.number; members = a.members } };
}

impl Arbiter {
    /// The arbitrator of a cluster that begins with these members, in view 1. Takes no memory.
    pub fn new(members: Members) -> Arbiter
        ensures { result ≡ fresh_arbiter members }
    {
        Arbiter { number: 1, members }
    }

    // Whether a request is granted.
    fn grants(&self, number: u64, members: &Members, joining: Option<Member>) -> bool
        ensures { result ≡ is_granted self.now number members.now joining }
    {
        if number > self.number {
            lie_in(&self.members, members, joining)
        } else {
            number == self.number && is_same_set(members, &self.members)
        }
    }

    #[tactic(auto, unfolding(crate::specs::Arbiter::arbit_row))]
    fn arbitrate(
        &mut self,
        node: u8,
        number: u64,
        members: &Members,
        joining: Option<Member>,
        out: &mut Outs,
    )
        requires { HasRoom out.old }
        ensures { IsTaken (arbit_row self.old node number members.now joining) self.new out.old out.new }
    {
        let to = Place {
            node,
            block: BlockId::Qmgr,
        };
        if self.grants(number, members, joining) {
            self.number = number;
            self.members = *members;
            out.send(to, Body::Membership(MembershipSignal::ArbitConf { number }));
        } else {
            let refusal = MembershipSignal::ArbitRef {
                number: self.number,
                members: self.members,
            };
            out.send(to, Body::Membership(refusal));
        }
    }
}

impl Actor for Arbiter {
    ghost use Rattle.sig_core.specs.Step.{stay};

    ghost step = { arbiter_row };

    ghost installed = { λ s view. stay s };

    /// Handles a signal. Takes no memory, so it never fails.
    fn handle(&mut self, _alloc: Global, signal: &Signal, out: &mut Outs) -> Result<(), NoMemory>
        requires { HasRoom out.old }
        ensures ok { OnOk result (IsTaken (arbiter_row self.old signal.now) self.new out.old out.new) }
        ensures err { OnErr result (IsUntouched self.old self.new out.old out.new) }
        ensures served { IsOk result }
    {
        match &signal.body {
            Body::Membership(
                MembershipSignal::ArbitReq {
                    number,
                    members,
                    joining,
                },
            ) => {
                self.arbitrate(signal.member.node, *number, members, *joining, out);
                Ok(())
            }
            _ => Ok(()),
        }
    }

    fn install(&mut self, _view: &View, _out: &mut Outs) {}
}
