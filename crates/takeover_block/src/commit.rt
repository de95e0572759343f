//! A transaction is committed.
ghost use Rattle.std.specs.Prelude.{◌≡◌};
ghost use Rattle.sig_core.specs.Step.{HasRoom, IsTaken};
ghost use Rattle.takeover_block.specs.Commit.{committed_row, completed_row};

use crate::gathered::first_of;
use crate::sends::send_stage;
use crate::stage::Stage;
use crate::takeover::Takeover;
use sig_core::{Outs, TxId};

impl Takeover {
    /// A key is committed. When all are, the client is told, and each key is completed.
    #[tactic(auto, unfolding(crate::specs::Commit::committed_row, crate::specs::Rule::entering))]
    pub(crate) fn committed(&mut self, tx: TxId, out: &mut Outs)
        requires { HasRoom out.old }
        ensures { IsTaken (committed_row self.old tx) self.new out.old out.new }
    {
        let Some(g) = first_of(self.gathered.as_slice(), tx) else {
            return;
        };
        if let Stage::Committing { epoch, awaited } = self.stage {
            if awaited > 1 {
                self.stage = Stage::Committing {
                    epoch,
                    awaited: awaited - 1,
                };
            } else {
                let awaited = g.keys.as_slice().len();
                let stage = Stage::Completing { epoch, awaited };
                self.left = send_stage(self.node, &self.layout, stage, g, 0, out);
                self.stage = stage;
            }
        }
    }

    /// A key is completed. When all are, the transaction is done with.
    #[tactic(auto, unfolding(crate::specs::Commit::completed_row))]
    pub(crate) fn completed(&mut self, tx: TxId, out: &mut Outs)
        requires { HasRoom out.old }
        ensures { IsTaken (completed_row self.old tx) self.new out.old out.new }
    {
        if !self.is_first(tx) {
            return;
        }
        if let Stage::Completing { epoch, awaited } = self.stage {
            if awaited > 1 {
                self.stage = Stage::Completing {
                    epoch,
                    awaited: awaited - 1,
                };
            } else {
                self.finish(out);
            }
        }
    }
}
