//! The abort of a transaction.
ghost use Rattle.std.specs.Prelude.{◌≡◌, ◌+◌, ◌*◌, ◌≤◌, length};
ghost use Rattle.sig_core.specs.Step.{HasRoom, IsTaken, joined, sends_only};
ghost use Rattle.tc_block.specs.Abort.{abort_end, aborted_for, aborted_row, aborts_awaited, asked_count, is_verifying};
ghost use Rattle.tc_block.specs.Abort.{refuse_row, replica_count, rollback_row};

use crate::complete::send_verify_end;
use crate::phase::{Asked, Phase};
use crate::touched::Touched;
use crate::transaction::Transaction;
use frag_map::Layout;
use sig_core::{AbortCause, Body, CLIENT, ClientSignal, Key, Outs, TxId};

impl Transaction {
    /// An operation is refused: the transaction is aborted. While it is, the operation's key is
    /// aborted once more, as at an answer. Answers whether the transaction is over then.
    #[tactic(auto, unfolding(crate::specs::Abort::refuse_row))]
    pub fn refuse(
        &mut self,
        node: u8,
        layout: &Layout,
        tx: TxId,
        key: &Key,
        cause: AbortCause,
        out: &mut Outs,
    ) -> bool
        requires { HasRoom out.old }
        ensures taken { IsTaken (refuse_row node layout.now tx self.old key.now cause).step self.new out.old out.new }
        ensures over { result ≡ (refuse_row node layout.now tx self.old key.now cause).over }
    {
        if self.asked_on(key).is_none() {
            return false;
        }
        match self.phase {
            Phase::Open => {
                self.asked = None;
                self.abort(node, layout, tx, cause, out)
            }
            Phase::Aborting {
                cause: _,
                verifying: _,
                awaited: _,
            } => {
                self.answer_late(layout, tx, key, out);
                false
            }
            _ => false,
        }
    }

    /// The client asks for an abort. What is decided, or is aborted already, goes on. Answers
    /// whether the transaction is over then.
    #[tactic(auto, unfolding(crate::specs::Abort::rollback_row))]
    pub fn rollback(&mut self, node: u8, layout: &Layout, tx: TxId, out: &mut Outs) -> bool
        requires { HasRoom out.old }
        ensures taken { IsTaken (rollback_row node layout.now tx self.old).step self.new out.old out.new }
        ensures over { result ≡ (rollback_row node layout.now tx self.old).over }
    {
        match self.phase {
            Phase::Open | Phase::Verifying => self.abort(
                node,
                layout,
                tx,
                AbortCause::Request,
                out,
            ),
            _ => false,
        }
    }

    /// Begins to abort, or ends at once where there is nothing to wait for. Answers whether the
    /// transaction is over then.
    #[tactic(auto, unfolding(crate::specs::Abort::aborted_for))]
    pub fn abort(
        &mut self,
        node: u8,
        layout: &Layout,
        tx: TxId,
        cause: AbortCause,
        out: &mut Outs,
    ) -> bool
        requires { HasRoom out.old }
        ensures taken { IsTaken (aborted_for node layout.now tx self.old cause).step self.new out.old out.new }
        ensures over { result ≡ (aborted_for node layout.now tx self.old cause).over }
    {
        let verifying = is_verifying(self.phase);
        let awaited = self.aborts_awaited(layout);
        if awaited == 0 {
            end_abort(node, tx, cause, verifying, out);
            true
        } else {
            let phase = Phase::Aborting {
                cause,
                verifying,
                awaited,
            };
            self.enter(node, layout, tx, phase, out);
            false
        }
    }

    // How many `Aborted` an abort waits for: those of the unanswered operation come twice.
    fn aborts_awaited(&self, layout: &Layout) -> usize
        ensures { result ≡ aborts_awaited layout.now self.now }
    {
        replica_count(layout, self.touched.as_slice()) + asked_count(layout, &self.asked)
    }

    /// A replica has aborted a key: when all have, the client is told. Answers whether the
    /// transaction is over then.
    #[tactic(auto, unfolding(crate::specs::Abort::aborted_row))]
    pub fn aborted(&mut self, node: u8, tx: TxId, out: &mut Outs) -> bool
        requires { HasRoom out.old }
        ensures taken { IsTaken (aborted_row node tx self.old).step self.new out.old out.new }
        ensures over { result ≡ (aborted_row node tx self.old).over }
    {
        if let Phase::Aborting {
            cause,
            verifying,
            awaited,
        } = self.phase
        {
            if awaited > 1 {
                self.phase = Phase::Aborting {
                    cause,
                    verifying,
                    awaited: awaited - 1,
                };
                false
            } else {
                end_abort(node, tx, cause, verifying, out);
                true
            }
        } else {
            false
        }
    }
}

/// The transaction leaves the count of its epoch, if it asked for one, and the client is told.
pub fn end_abort(node: u8, tx: TxId, cause: AbortCause, verifying: bool, out: &mut Outs)
    requires { HasRoom out.old }
    ensures { out.new ≡ joined out.old (sends_only (abort_end node tx cause verifying)) }
{
    let told = ClientSignal::TcRollbackRep { tx, cause };
    if verifying {
        send_verify_end(node, tx, out);
        out.send(CLIENT, Body::Client(told));
    } else {
        out.send(CLIENT, Body::Client(told));
    }
}

fn is_verifying(phase: Phase) -> bool
    ensures { result ≡ is_verifying phase }
{
    match phase {
        Phase::Verifying => true,
        _ => false,
    }
}

/// How many replicas the keys have in a layout, all together.
pub fn replica_count(layout: &Layout, touched: &[Touched]) -> usize
    requires { length touched.now ≤ 64 }
    ensures count { result ≡ replica_count layout.now touched.now }
    ensures few { result ≤ 512 }
{
    let mut count = 0;
    for t in touched {
        count += layout.chain_of(&t.key).as_slice().len();
    }
    count
}

// How many replicas the key of the unanswered operation has, if there is one.
fn asked_count(layout: &Layout, asked: &Option<Asked>) -> usize
    ensures count { result ≡ asked_count layout.now asked.now }
    ensures few { result ≤ 8 }
{
    match asked {
        Some(asked) => layout.chain_for(&asked.op).as_slice().len(),
        None => 0,
    }
}
