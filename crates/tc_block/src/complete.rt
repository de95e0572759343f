//! The completion of a transaction: what follows when all its keys are committed.
ghost use Rattle.std.specs.Prelude.{◌≡◌, ◌≤◌, ◌<◌, length};
ghost use Rattle.sig_core.specs.Step.{HasRoom, IsTaken, and_send};
ghost use Rattle.tc_block.specs.Complete.{all_committed, completed_row, one_if, written_count};
ghost use Rattle.tc_block.specs.Sends.{verify_end};

use crate::phase::Phase;
use crate::touched::Touched;
use crate::transaction::Transaction;
use frag_map::Layout;
use sig_core::{Body, CLIENT, ClientSignal, EpochSignal, Outs, TxId, epochs};

impl Transaction {
    /// All keys are committed: tells the client, and completes what was written. Answers whether the
    /// transaction is over then.
    #[tactic(auto, unfolding(crate::specs::Complete::all_committed))]
    pub fn complete(
        &mut self,
        node: u8,
        layout: &Layout,
        tx: TxId,
        epoch: u64,
        out: &mut Outs,
    ) -> bool
        requires { HasRoom out.old }
        ensures taken { IsTaken (all_committed node layout.now tx self.old epoch).step self.new out.old out.new }
        ensures over { result ≡ (all_committed node layout.now tx self.old epoch).over }
    {
        let awaited = written_count(self.touched.as_slice());
        if awaited == 0 {
            out.send(
                CLIENT,
                Body::Client(ClientSignal::TcCommitConf { tx, epoch }),
            );
            send_verify_end(node, tx, out);
            true
        } else {
            self.enter(node, layout, tx, Phase::Completing { epoch, awaited }, out);
            false
        }
    }

    /// A key is completed: when all are, the transaction leaves the count of its epoch. Answers
    /// whether it is over then.
    #[tactic(auto, unfolding(crate::specs::Complete::completed_row))]
    pub fn completed(&mut self, node: u8, tx: TxId, out: &mut Outs) -> bool
        requires { HasRoom out.old }
        ensures taken { IsTaken (completed_row node tx self.old).step self.new out.old out.new }
        ensures over { result ≡ (completed_row node tx self.old).over }
    {
        if let Phase::Completing { epoch, awaited } = self.phase {
            if awaited > 1 {
                self.phase = Phase::Completing {
                    epoch,
                    awaited: awaited - 1,
                };
                false
            } else {
                send_verify_end(node, tx, out);
                true
            }
        } else {
            false
        }
    }
}

/// The transaction leaves the count of its epoch.
pub fn send_verify_end(node: u8, tx: TxId, out: &mut Outs)
    requires { length out.old.sends < 16 }
    ensures { out.new ≡ and_send out.old (verify_end node tx).to (verify_end node tx).body }
{
    out.send(epochs(node), Body::Epoch(EpochSignal::DiVerifyEnd { tx }));
}

// How many of the keys were written.
fn written_count(touched: &[Touched]) -> usize
    ensures count { result ≡ written_count touched.now }
    ensures few { result ≤ length touched.now }
{
    let mut count = 0;
    for t in touched {
        count += one_if(t.written);
    }
    count
}

fn one_if(written: bool) -> usize
    ensures value { result ≡ one_if written }
    ensures few { result ≤ 1 }
{
    if written { 1 } else { 0 }
}
