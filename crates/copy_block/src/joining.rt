//! A joining is driven.
ghost use Rattle.std.specs.Prelude.{◌≡◌, ◌+◌, ◌≤◌, length};
ghost use Rattle.sig_core.specs.Step.{HasRoom, IsTaken};
ghost use Rattle.copy_block.specs.Joinings.{asking, closed_row, copied_row, drained_row, draining, go_on_row};
ghost use Rattle.copy_block.specs.Joinings.{is_left, order_row, promoting, requesting, saved_row, saving, wait_row};

use crate::copying::CopyBlock;
use crate::sends::{
    SENDS, count_drains, count_requests, is_full_beside, is_same, send_drains, send_requests,
};
use crate::stage::{Joiner, Stage};
use sig_core::{
    BlockId, Body, CLIENT, EpochSignal, JoiningSignal, Member, Outs, TxId, checkpoints, membership,
    rows_of,
};

impl CopyBlock {
    /// A joining is ordered. It begins where none is under way.
    #[tactic(auto, unfolding(crate::specs::Joinings::order_row))]
    pub(crate) fn order(&mut self, member: Member, own: Option<u64>, out: &mut Outs)
        requires { HasRoom out.old }
        ensures { IsTaken (order_row self.old member own) self.new out.old out.new }
    {
        if let Stage::Resting = self.stage {
            let joiner = Joiner { member, own };
            self.ask(Stage::FirstCheckpoint { joiner }, out);
        }
    }

    // Asks for a global checkpoint.
    fn ask(&mut self, stage: Stage, out: &mut Outs)
        requires { length out.old.sends + 1 ≤ 16 }
        ensures { IsTaken (asking self.old stage) self.new out.old out.new }
    {
        self.stage = stage;
        self.left = 0;
        let by = BlockId::Copy;
        out.send(
            checkpoints(self.node),
            Body::Epoch(EpochSignal::GcpReq { by }),
        );
    }

    /// The global checkpoint that was asked for has ended.
    #[tactic(auto, unfolding(crate::specs::Joinings::closed_row))]
    pub(crate) fn closed(&mut self, out: &mut Outs)
        requires { HasRoom out.old }
        ensures { IsTaken (closed_row self.old) self.new out.old out.new }
    {
        match self.stage {
            Stage::FirstCheckpoint { joiner } => self.drain(joiner, out),
            Stage::LastCheckpoint { joiner } => self.promote(joiner, out),
            _ => {}
        }
    }

    // Each full member of the group is to tell when what is under way there has ended.
    #[tactic(auto, unfolding(crate::specs::Joinings::draining))]
    fn drain(&mut self, joiner: Joiner, out: &mut Outs)
        requires { HasRoom out.old }
        ensures { IsTaken (draining self.old joiner) self.new out.old out.new }
    {
        let awaited = count_drains(&self.layout, joiner.member);
        if awaited == 0 {
            self.request(joiner, out);
        } else {
            self.stage = Stage::Draining { joiner, awaited };
            self.left = 0;
            send_drains(&self.layout, joiner.member, out);
        }
    }

    // The member is to become full.
    fn promote(&mut self, joiner: Joiner, out: &mut Outs)
        requires { HasRoom out.old }
        ensures { IsTaken (promoting self.old joiner) self.new out.old out.new }
    {
        self.stage = Stage::Promoting { joiner };
        self.left = 0;
        let member = joiner.member;
        out.send(
            membership(self.node),
            Body::Joining(JoiningSignal::PromoteReq { member }),
        );
    }

    /// A full member of the group tells that what was under way there has ended.
    #[tactic(auto, unfolding(crate::specs::Joinings::drained_row))]
    pub(crate) fn drained(&mut self, from: Member, out: &mut Outs)
        requires { HasRoom out.old }
        ensures { IsTaken (drained_row self.old from) self.new out.old out.new }
    {
        if let Stage::Draining { joiner, awaited } = self.stage {
            if is_full_beside(&self.layout, joiner.member, from) {
                if awaited > 1 {
                    self.stage = Stage::Draining {
                        joiner,
                        awaited: awaited - 1,
                    };
                } else {
                    self.request(joiner, out);
                }
            }
        }
    }

    /// What the joining waits for is passed to the client.
    pub(crate) fn wait(&mut self, tx: TxId, out: &mut Outs)
        requires { HasRoom out.old }
        ensures { IsTaken (wait_row self.old tx) self.new out.old out.new }
    {
        out.send(CLIENT, Body::Joining(JoiningSignal::DrainWait { tx }));
    }

    // The primary of each fragment of the member is to copy it.
    #[tactic(auto, unfolding(crate::specs::Joinings::requesting))]
    fn request(&mut self, joiner: Joiner, out: &mut Outs)
        requires { HasRoom out.old }
        ensures { IsTaken (requesting self.old joiner) self.new out.old out.new }
    {
        let awaited = count_requests(&self.layout, &joiner);
        if awaited == 0 {
            self.save(joiner, out);
        } else {
            self.stage = Stage::Fragments { joiner, awaited };
            self.left = send_requests(self.node, &self.layout, &joiner, 0, out);
        }
    }

    // The member is to save its rows.
    fn save(&mut self, joiner: Joiner, out: &mut Outs)
        requires { HasRoom out.old }
        ensures { IsTaken (saving self.old joiner) self.new out.old out.new }
    {
        self.stage = Stage::Saving { joiner };
        self.left = 0;
        out.send(
            rows_of(joiner.member.node),
            Body::Joining(JoiningSignal::CopySaveReq),
        );
    }

    /// Asks the primaries that weren't asked yet, from a place on.
    #[tactic(auto, unfolding(crate::specs::Joinings::go_on_row))]
    pub(crate) fn go_on(&mut self, at: u64, out: &mut Outs)
        requires { HasRoom out.old }
        ensures { IsTaken (go_on_row self.old at) self.new out.old out.new }
    {
        if !self.is_left(at) {
            return;
        }
        if let Stage::Fragments { joiner, awaited: _ } = self.stage {
            self.left = send_requests(self.node, &self.layout, &joiner, at, out);
        }
    }

    // Whether something of the list is left, from this place on.
    fn is_left(&self, at: u64) -> bool
        ensures { result ≡ is_left self.now at }
    {
        at > 0 && at == self.left && at < SENDS
    }

    /// A fragment is copied.
    #[tactic(auto, unfolding(crate::specs::Joinings::copied_row))]
    pub(crate) fn copied(&mut self, out: &mut Outs)
        requires { HasRoom out.old }
        ensures { IsTaken (copied_row self.old) self.new out.old out.new }
    {
        if let Stage::Fragments { joiner, awaited } = self.stage {
            if awaited > 1 {
                self.stage = Stage::Fragments {
                    joiner,
                    awaited: awaited - 1,
                };
            } else {
                self.save(joiner, out);
            }
        }
    }

    /// The member that begins anew has saved its rows.
    #[tactic(auto, unfolding(crate::specs::Joinings::saved_row))]
    pub(crate) fn saved(&mut self, from: Member, out: &mut Outs)
        requires { HasRoom out.old }
        ensures { IsTaken (saved_row self.old from) self.new out.old out.new }
    {
        if let Stage::Saving { joiner } = self.stage {
            if is_same(from, &joiner.member) {
                self.ask(Stage::LastCheckpoint { joiner }, out);
            }
        }
    }
}
