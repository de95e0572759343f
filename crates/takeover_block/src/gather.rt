//! What is gathered.
ghost use Rattle.std.specs.Prelude.{◌≡◌, OnOk, OnErr};
ghost use Rattle.sig_core.specs.Step.{HasRoom, IsTaken, IsUntouched};
ghost use Rattle.takeover_block.specs.Gather.{ask_row, end_row, order_row, tell_row};

use crate::gathered::{note, told_epoch};
use crate::sends::send_asks;
use crate::stage::Stage;
use crate::takeover::Takeover;
use sig_core::{Key, NoMemory, Outs, RecordState, TxId};
use std::alloc::Global;

impl Takeover {
    /// Begins anew: forgets what was gathered, and asks every member.
    #[tactic(auto, unfolding(crate::specs::Gather::order_row))]
    pub(crate) fn order(&mut self, out: &mut Outs)
        requires { HasRoom out.old }
        ensures { IsTaken (order_row self.old) self.new out.old out.new }
    {
        let view = self.layout.view();
        let awaited = view.full.as_slice().len() + view.starting.as_slice().len();
        self.stage = Stage::Gathering { awaited };
        self.gathered.clear();
        if awaited == 0 {
            self.left = 0;
            self.rule(out);
        } else {
            self.left = send_asks(self.node, self.layout.view(), 0, out);
        }
    }

    /// Goes on asking, from a place of the members on.
    #[tactic(auto, unfolding(crate::specs::Gather::ask_row))]
    pub(crate) fn ask(&mut self, at: u64, out: &mut Outs)
        requires { HasRoom out.old }
        ensures { IsTaken (ask_row self.old at) self.new out.old out.new }
    {
        if !self.is_left(at) {
            return;
        }
        if let Stage::Gathering { awaited: _ } = self.stage {
            self.left = send_asks(self.node, self.layout.view(), at, out);
        }
    }

    /// A member tells of a record or a marker.
    ///
    /// # Errors
    /// `NoMemory`, and then nothing has happened.
    #[tactic(auto, unfolding(crate::specs::Gather::tell_row))]
    pub(crate) fn tell(
        &mut self,
        alloc: Global,
        tx: TxId,
        key: &Key,
        state: RecordState,
        epoch: u64,
        out: &mut Outs,
    ) -> Result<(), NoMemory>
        ensures ok { OnOk result (IsTaken (tell_row self.old tx key.now state epoch) self.new out.old out.new) }
        ensures err { OnErr result (IsUntouched self.old self.new out.old out.new) }
    {
        if let Stage::Gathering { awaited: _ } = self.stage {
            let epoch = told_epoch(state, epoch);
            note(alloc, &mut self.gathered, tx, key, epoch)?;
        }
        Ok(())
    }

    /// A member has told all. When all have, the first transaction is ruled on.
    #[tactic(auto, unfolding(crate::specs::Gather::end_row))]
    pub(crate) fn end(&mut self, out: &mut Outs)
        requires { HasRoom out.old }
        ensures { IsTaken (end_row self.old) self.new out.old out.new }
    {
        if let Stage::Gathering { awaited } = self.stage {
            if awaited > 1 {
                self.stage = Stage::Gathering {
                    awaited: awaited - 1,
                };
            } else {
                self.rule(out);
            }
        }
    }
}
