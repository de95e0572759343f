//! A transaction is aborted.
ghost use Rattle.std.specs.Prelude.{◌≡◌};
ghost use Rattle.sig_core.specs.Step.{HasRoom, IsTaken};
ghost use Rattle.takeover_block.specs.Abort.{aborted_row};

use crate::stage::Stage;
use crate::takeover::Takeover;
use sig_core::{Body, CLIENT, ClientSignal, Outs, TxId};

impl Takeover {
    /// A replica has aborted a key. When all have, the client is told, and the transaction is done
    /// with.
    #[tactic(auto, unfolding(crate::specs::Abort::aborted_row))]
    pub(crate) fn aborted(&mut self, tx: TxId, out: &mut Outs)
        requires { HasRoom out.old }
        ensures { IsTaken (aborted_row self.old tx) self.new out.old out.new }
    {
        if !self.is_first(tx) {
            return;
        }
        if let Stage::Aborting { awaited } = self.stage {
            if awaited > 1 {
                self.stage = Stage::Aborting {
                    awaited: awaited - 1,
                };
            } else {
                out.send(CLIENT, Body::Client(ClientSignal::TcKeyFailRef { tx }));
                self.finish(out);
            }
        }
    }
}
