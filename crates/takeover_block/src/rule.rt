//! One transaction after the other is ruled on.
ghost use Rattle.std.specs.Prelude.{◌≡◌, ◌+◌, ◌*◌, ◌≤◌, ◌<◌, ◌^◌, length};
ghost use Rattle.sig_core.specs.Step.{HasRoom, IsTaken};
ghost use Rattle.takeover_block.specs.Rule.{go_on_row, finishing, is_at_work, is_left, replica_count, ruling, way_of};

use crate::gathered::{Gathered, first_of};
use crate::sends::{SENDS, send_over, send_stage};
use crate::stage::Stage;
use crate::takeover::Takeover;
use frag_map::Layout;
use sig_core::{Key, Outs, TxId};

impl Takeover {
    /// Rules on the first of the transactions: it is committed where a member told an epoch of it,
    /// and else aborted. Where none is left, the takeover is over.
    #[tactic(auto, unfolding(crate::specs::Rule::ruling, crate::specs::Rule::entering))]
    pub(crate) fn rule(&mut self, out: &mut Outs)
        requires { length out.old.sends + 9 ≤ 16 }
        ensures { IsTaken (ruling self.old) self.new out.old out.new }
    {
        match self.gathered.as_slice().first() {
            Some(g) => {
                let stage = way_of(&self.layout, g);
                self.left = send_stage(self.node, &self.layout, stage, g, 0, out);
                self.stage = stage;
            }
            None => {
                self.stage = Stage::Resting;
                self.left = 0;
                send_over(self.node, out);
            }
        }
    }

    /// The first of the transactions is done with: the next is ruled on.
    #[tactic(auto, unfolding(crate::specs::Rule::finishing))]
    pub(crate) fn finish(&mut self, out: &mut Outs)
        requires room { length out.old.sends + 9 ≤ 16 }
        requires some { 1 ≤ length self.old.gathered }
        ensures { IsTaken (finishing self.old) self.new out.old out.new }
    {
        self.gathered.remove(0);
        self.rule(out);
    }

    /// Goes on with what is sent for the transaction at work, from a place on. Another place than
    /// the one that is left does nothing.
    #[tactic(auto, unfolding(crate::specs::Rule::go_on_row))]
    pub(crate) fn go_on(&mut self, tx: TxId, at: u64, out: &mut Outs)
        requires { HasRoom out.old }
        ensures { IsTaken (go_on_row self.old tx at) self.new out.old out.new }
    {
        if !self.is_left(at) || !is_at_work(self.stage) {
            return;
        }
        if let Some(g) = first_of(self.gathered.as_slice(), tx) {
            self.left = send_stage(self.node, &self.layout, self.stage, g, at, out);
        }
    }

    /// Whether something of the list of the stage is left, from this place on.
    pub(crate) fn is_left(&self, at: u64) -> bool
        ensures { result ≡ is_left self.now at }
    {
        at > 0 && at == self.left && at < SENDS
    }
}

fn is_at_work(stage: Stage) -> bool
    ensures { result ≡ is_at_work stage }
{
    match stage {
        Stage::Committing {
            epoch: _,
            awaited: _,
        }
        | Stage::Completing {
            epoch: _,
            awaited: _,
        }
        | Stage::Aborting { awaited: _ } => true,
        Stage::Resting | Stage::Gathering { awaited: _ } => false,
    }
}

// Where a transaction is to go: with an epoch each key is committed, without one each replica of
// each key aborts.
#[tactic(auto, unfolding(crate::specs::Rule::way_of))]
fn way_of(layout: &Layout, g: &Gathered) -> Stage
    ensures { result ≡ way_of layout.now g.now }
{
    let keys = g.keys.as_slice();
    match g.epoch {
        Some(epoch) => Stage::Committing {
            epoch,
            awaited: keys.len(),
        },
        None => Stage::Aborting {
            awaited: replica_count(layout, keys),
        },
    }
}

// How many replicas the keys have in a layout, all together.
fn replica_count(layout: &Layout, keys: &[Key]) -> usize
    requires { length keys.now ≤ 2 ^ 32 }
    ensures { result ≡ replica_count layout.now keys.now }
{
    let mut count = 0;
    for key in keys {
        count += layout.chain_of(key).as_slice().len();
    }
    count
}
