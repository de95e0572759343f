//! A transaction, as its coordinator sees it.
ghost use Rattle.std.specs.Prelude.{◌≡◌};
ghost use Rattle.sig_core.specs.Step.{HasRoom, IsTaken};

use crate::phase::{Asked, Phase};
use crate::sends::{SENDS, send_part};
use crate::touched::TouchedKeys;
use frag_map::Layout;
use sig_core::{HeldAnswer, HeldOp, Outs, Seq, TxId};
use std::alloc::Global;

/// A transaction that has begun and isn't forgotten.
#[derive(Drop)]
pub struct Transaction {
    /// The answered operations, in order.
    pub ops: Seq<(HeldOp, HeldAnswer)>,
    /// The keys that its operations are on.
    pub touched: TouchedKeys,
    /// The operation that isn't answered.
    pub asked: Option<Asked>,
    pub phase: Phase,
}

impl Transaction {
    ghost use Rattle.tc_block.specs.Operate.{fresh};
    ghost use Rattle.tc_block.specs.Sends.{entering, go_on_row};

    /// A transaction that has begun. Takes no memory.
    pub fn new(alloc: Global) -> Transaction
        ensures { result ≡ fresh }
    {
        Transaction {
            ops: Seq::new(alloc),
            touched: TouchedKeys::new(alloc),
            asked: None,
            phase: Phase::Open,
        }
    }

    /// Comes to a phase, and sends the first part of what is sent in it.
    #[tactic(auto, unfolding(crate::specs::Sends::entering))]
    pub fn enter(&mut self, node: u8, layout: &Layout, tx: TxId, phase: Phase, out: &mut Outs)
        requires { HasRoom out.old }
        ensures { IsTaken (entering node layout.now tx self.old phase) self.new out.old out.new }
    {
        self.phase = phase;
        send_part(node, layout, tx, phase, self.touched.as_slice(), 0, out);
    }

    /// Goes on with a list of sends, from this place on.
    #[tactic(auto, unfolding(crate::specs::Sends::go_on_row))]
    pub fn go_on(&self, node: u8, layout: &Layout, tx: TxId, at: u64, out: &mut Outs)
        requires { HasRoom out.old }
        ensures { IsTaken (go_on_row node layout.now tx self.now at) self.now out.old out.new }
    {
        if at < SENDS {
            let touched = self.touched.as_slice();
            send_part(node, layout, tx, self.phase, touched, at, out);
        }
    }
}
