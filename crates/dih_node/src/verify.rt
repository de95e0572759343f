//! Transactions are given epochs.
ghost use Rattle.std.specs.Prelude.{◌≡◌, ◌+◌, ◌<◌, ◌≤◌, length, position, Some};
ghost use Rattle.sig_core.specs.Same.{same_tx};
ghost use Rattle.sig_core.specs.Step.{HasRoom, IsTaken};
ghost use Rattle.dih_node.specs.State.{gives, is_unfinished};
ghost use Rattle.dih_node.specs.Verify.{end_row, ended, given, is_of, reported, serve_by, serve_row, verify_row};

use crate::dih::{Counted, Dih, TRANSACTIONS};
use sig_core::{Body, EpochSignal, Mark, Outs, TxId, checkpoints, coordinator};

// Whether the two are one transaction.
fn is_same(one: &TxId, other: &TxId) -> bool
    ensures { result ≡ same_tx one.now other.now }
{
    *one == *other
}

// Where a transaction stands among those that are held, if it does.
fn place_held(held: &[TxId], tx: &TxId) -> Option<usize>
    ensures { result ≡ position (same_tx tx.now) held.now }
{
    held.iter().position(|other| is_same(tx, other))
}

// Where it stands among those that are counted.
fn place_counted(counted: &[Counted], tx: &TxId) -> Option<usize>
    ensures { result ≡ position (is_of tx.now) counted.now }
{
    counted.iter().position(|one| is_same(tx, &one.tx))
}

// Whether a transaction that has this epoch, or one before it, hasn't ended.
fn is_unfinished(counted: &[Counted], epoch: u64) -> bool
    ensures { result ≡ is_unfinished counted.now epoch }
{
    counted.iter().any(|one| one.epoch <= epoch)
}

impl Dih {
    // Whether it gives epochs.
    #[tactic(auto, unfolding(crate::specs::State::gives))]
    pub(crate) fn gives(&self) -> bool
        ensures { result ≡ gives self.now }
    {
        !(self.current < self.next || self.number < self.fence)
    }

    // A transaction is decided.
    #[tactic(auto, unfolding(crate::specs::Verify::given))]
    fn give(&mut self, tx: TxId, out: &mut Outs)
        requires count { length self.old.counted + length self.old.held < 64 }
        requires room { HasRoom out.old }
        ensures taken { IsTaken (given self.old tx) self.new out.old out.new }
        ensures few { length out.new.sends ≤ length out.old.sends + 1 }
    {
        let epoch = self.current;
        self.counted.push_reserved(Counted { tx, epoch });
        out.mark(Mark::Decided { tx, epoch });
        out.send(
            coordinator(self.node),
            Body::Epoch(EpochSignal::DiVerifyConf { tx, epoch }),
        );
    }

    // A transaction asks for an epoch. Where none is given the request is held.
    #[tactic(auto, unfolding(crate::specs::Verify::verify_row))]
    pub(crate) fn verify(&mut self, tx: TxId, out: &mut Outs)
        requires { HasRoom out.old }
        ensures { IsTaken (verify_row self.old tx) self.new out.old out.new }
    {
        if self.counted.len() + self.held.len() < TRANSACTIONS {
            if self.gives() {
                self.give(tx, out);
            } else {
                self.held.push_reserved(tx);
            }
        }
    }

    // Serves the oldest request that is held, unless another view was installed since.
    #[tactic(auto, unfolding(crate::specs::Verify::serve_row))]
    pub(crate) fn serve(&mut self, number: u64, out: &mut Outs)
        requires { HasRoom out.old }
        ensures { IsTaken (serve_row self.old number) self.new out.old out.new }
    {
        if number == self.number && self.gives() {
            if let Some(tx) = self.held.first().copied() {
                self.serve_first(tx, out);
            }
        }
    }

    // Serves the oldest request that is held, which is this one.
    #[tactic(auto, unfolding(crate::specs::Verify::given))]
    fn serve_first(&mut self, tx: TxId, out: &mut Outs)
        requires some { 0 < length self.old.held }
        requires room { HasRoom out.old }
        ensures { IsTaken (serve_by self.old (Some tx)) self.new out.old out.new }
    {
        self.held.remove(0);
        let more = !self.held.is_empty();
        self.give(tx, out);
        self.go_on_if(more, out);
    }

    // A transaction ends.
    #[tactic(auto, unfolding(crate::specs::Verify::end_row))]
    pub(crate) fn end(&mut self, tx: TxId, out: &mut Outs)
        requires { HasRoom out.old }
        ensures { IsTaken (end_row self.old tx) self.new out.old out.new }
    {
        self.leave(tx);
        self.report(out);
    }

    // It leaves the count, or those that are held.
    #[tactic(auto, unfolding(crate::specs::Verify::ended))]
    fn leave(&mut self, tx: TxId)
        ensures { self.new ≡ ended self.old tx }
    {
        if let Some(at) = place_counted(&self.counted, &tx) {
            self.counted.remove(at);
        } else if let Some(at) = place_held(&self.held, &tx) {
            self.held.remove(at);
        }
    }

    // The order that is carried out is reported when nothing up to its epoch is counted any more.
    #[tactic(auto, unfolding(crate::specs::Verify::reported))]
    pub(crate) fn report(&mut self, out: &mut Outs)
        requires { length out.old.sends + 12 ≤ 16 }
        ensures taken { IsTaken (reported self.old) self.new out.old out.new }
        ensures few { length out.new.sends ≤ length out.old.sends + 1 }
    {
        if let Some(order) = self.order {
            if !is_unfinished(&self.counted, order.epoch) {
                let epoch = order.epoch;
                self.order = None;
                out.send(
                    checkpoints(order.to),
                    Body::Epoch(EpochSignal::GcpNodeFinish { epoch }),
                );
            }
        }
    }
}
