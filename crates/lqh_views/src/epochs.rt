//! Fences, and the orders of the master of checkpoints.
ghost use Rattle.std.specs.Prelude.{◌≡◌};
ghost use Rattle.sig_core.specs.Step.{HasRoom, IsTaken};
ghost use Rattle.lqh_views.specs.Epochs.{close_row, epoch_table, fence_row, greater, save_row, state_row};

use crate::replica::Replica;
use sig_core::{Body, EpochSignal, Journal, MembershipSignal, Outs, Rows, checkpoints, membership};

// The greater of two.
fn greater(one: u64, other: u64) -> u64
    ensures { result ≡ greater one other }
{
    if one < other { other } else { one }
}

impl<R: Rows, J: Journal> Replica<R, J> {
    /// A view is promised.
    pub(crate) fn promise(&self, out: &mut Outs)
        requires { HasRoom out.old }
        ensures { IsTaken (fence_row self.now) self.now out.old out.new }
    {
        out.send(
            membership(self.lqh.node()),
            Body::Membership(MembershipSignal::FenceConf),
        );
    }

    /// Handles a signal of epochs from this node.
    pub(crate) fn handle_epoch(&mut self, from: u8, signal: &EpochSignal, out: &mut Outs)
        requires { HasRoom out.old }
        ensures { IsTaken (epoch_table self.old from signal.now) self.new out.old out.new }
    {
        match signal {
            EpochSignal::GcpClosed { epoch } => self.close(from, *epoch, out),
            EpochSignal::GcpSaveReq { epoch } => self.save(from, *epoch, out),
            EpochSignal::GcpStateReq => self.tell_state(from, out),
            _ => {}
        }
    }

    // It notes that an epoch is closed.
    fn close(&mut self, from: u8, epoch: u64, out: &mut Outs)
        requires { HasRoom out.old }
        ensures { IsTaken (close_row self.old from epoch) self.new out.old out.new }
    {
        self.closed = greater(self.closed, epoch);
        out.send(
            checkpoints(from),
            Body::Epoch(EpochSignal::GcpClosedConf { epoch }),
        );
    }

    // It notes that one is saved.
    fn save(&mut self, from: u8, epoch: u64, out: &mut Outs)
        requires { HasRoom out.old }
        ensures { IsTaken (save_row self.old from epoch) self.new out.old out.new }
    {
        self.saved = greater(self.saved, epoch);
        out.send(
            checkpoints(from),
            Body::Epoch(EpochSignal::GcpSaveConf { epoch }),
        );
    }

    // It tells how far it is.
    fn tell_state(&self, from: u8, out: &mut Outs)
        requires { HasRoom out.old }
        ensures { IsTaken (state_row self.now from) self.now out.old out.new }
    {
        let state = EpochSignal::GcpStateConf {
            current: 0,
            prepared: 0,
            next: 0,
            closed: self.closed,
            saved: self.saved,
            durable: 0,
        };
        out.send(checkpoints(from), Body::Epoch(state));
    }
}
