//! Requests for closings.
ghost use Rattle.std.specs.Prelude.{◌≡◌, is_some};
ghost use Rattle.sig_core.specs.Step.{HasRoom, IsTaken};
ghost use Rattle.gcp_master.specs.Requests.{asked_row, global_asked, local_asked, micro_asked};
ghost use Rattle.gcp_master.specs.Spent.{asked_spent};

use crate::master::GcpMaster;
use crate::phase::{Asked, Phase};
use sig_core::Outs;

impl Asked {
    /// A global checkpoint is asked for too, by the client, which is node 0, or by the copying of
    /// the master's own node.
    pub fn and_global(self, node: u8) -> Asked
        ensures { result ≡ global_asked self node }
    {
        if node == 0 {
            Asked {
                global: true,
                copy: self.copy,
                local: self.local,
                micro: self.micro,
            }
        } else {
            Asked {
                global: self.global,
                copy: true,
                local: self.local,
                micro: self.micro,
            }
        }
    }

    /// A global checkpoint is asked for too, by a local one.
    pub fn and_local(self) -> Asked
        ensures { result ≡ local_asked self }
    {
        Asked {
            global: self.global,
            copy: self.copy,
            local: true,
            micro: self.micro,
        }
    }

    /// A micro closing is asked for too.
    pub fn and_micro(self) -> Asked
        ensures { result ≡ micro_asked self }
    {
        Asked {
            global: self.global,
            copy: self.copy,
            local: self.local,
            micro: true,
        }
    }
}

impl GcpMaster {
    // This is asked for: it is begun where nothing is under way, and else is held. Answers whether the
    // numbers of epochs are used up.
    #[tactic(auto, unfolding(crate::specs::Requests::asked_row, crate::specs::Spent::asked_spent))]
    pub(crate) fn ask(&mut self, asked: Asked, out: &mut Outs) -> bool
        requires { HasRoom out.old }
        ensures taken { IsTaken (asked_row self.old asked) self.new out.old out.new }
        ensures spent { result ≡ asked_spent self.old asked }
    {
        self.asked = asked;
        if let Phase::Resting { current } = self.phase {
            let listed = self.front.is_some();
            return self.begin(current, listed, out);
        }
        false
    }
}
