//! The orders of the master of checkpoints.
ghost use Rattle.std.specs.Prelude.{◌≡◌, ◌+◌, ◌≤◌, length};
ghost use Rattle.sig_core.specs.Step.{HasRoom, IsTaken, stay};
ghost use Rattle.dih_node.specs.Orders.{close_row, commit_row, copy_row, done_row, greater, noting, prepare_row};
ghost use Rattle.dih_node.specs.Orders.{state_row};

use crate::dih::{Dih, Report};
use sig_core::{Body, EpochSignal, Outs, checkpoints};

/// The greater of two.
pub fn greater(one: u64, other: u64) -> u64
    ensures { result ≡ greater one other }
{
    if one < other { other } else { one }
}

impl Dih {
    // No epoch is given from now on.
    #[tactic(auto, unfolding(crate::specs::Orders::prepare_row))]
    pub(crate) fn prepare(&mut self, from: u8, epoch: u64, next: u64, out: &mut Outs)
        requires { HasRoom out.old }
        ensures { IsTaken (prepare_row self.old from epoch next) self.new out.old out.new }
    {
        if self.current <= epoch {
            self.prepared = epoch;
            self.next = next;
        }
        out.send(
            checkpoints(from),
            Body::Epoch(EpochSignal::GcpPrepareConf { epoch }),
        );
    }

    // The epoch that follows is given from now on.
    #[tactic(auto, unfolding(crate::specs::Orders::commit_row))]
    pub(crate) fn commit(&mut self, from: u8, epoch: u64, next: u64, out: &mut Outs)
        requires { HasRoom out.old }
        ensures { IsTaken (commit_row self.old from epoch next) self.new out.old out.new }
    {
        if self.current <= epoch {
            self.current = next;
            self.prepared = epoch;
            self.next = next;
            self.note(from, epoch, out);
            self.serve_held(out);
        } else {
            self.note(from, epoch, out);
        }
    }

    // The end of an order is reported to who sent it last.
    fn note(&mut self, from: u8, epoch: u64, out: &mut Outs)
        requires { HasRoom out.old }
        ensures taken { IsTaken (noting self.old from epoch) self.new out.old out.new }
        ensures few { length out.new.sends ≤ length out.old.sends + 1 }
    {
        self.order = Some(Report { epoch, to: from });
        self.report(out);
    }

    // It notes that an epoch is closed.
    #[tactic(auto, unfolding(crate::specs::Orders::close_row))]
    pub(crate) fn close(&mut self, from: u8, epoch: u64, out: &mut Outs)
        requires { HasRoom out.old }
        ensures { IsTaken (close_row self.old from epoch) self.new out.old out.new }
    {
        self.closed = greater(self.closed, epoch);
        out.send(
            checkpoints(from),
            Body::Epoch(EpochSignal::GcpClosedConf { epoch }),
        );
    }

    // There is no system file to write.
    #[tactic(auto, unfolding(crate::specs::Orders::copy_row))]
    pub(crate) fn copy(&self, from: u8, epoch: u64, out: &mut Outs)
        requires { HasRoom out.old }
        ensures { IsTaken (copy_row self.now from epoch) self.now out.old out.new }
    {
        out.send(
            checkpoints(from),
            Body::Epoch(EpochSignal::CopyGciConf { epoch }),
        );
    }

    // It notes that an epoch is durable.
    #[tactic(auto, unfolding(crate::specs::Orders::done_row))]
    pub(crate) fn done(&mut self, epoch: u64)
        ensures { stay self.new ≡ done_row self.old epoch }
    {
        self.durable = greater(self.durable, epoch);
    }

    // It tells how far it is.
    #[tactic(auto, unfolding(crate::specs::Orders::state_row))]
    pub(crate) fn tell(&self, from: u8, out: &mut Outs)
        requires { HasRoom out.old }
        ensures { IsTaken (state_row self.now from) self.now out.old out.new }
    {
        let state = EpochSignal::GcpStateConf {
            current: self.current,
            prepared: self.prepared,
            next: self.next,
            closed: self.closed,
            saved: 0,
            durable: self.durable,
        };
        out.send(checkpoints(from), Body::Epoch(state));
    }
}
