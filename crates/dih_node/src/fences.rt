//! Fences and views.
ghost use Rattle.std.specs.Prelude.{◌≡◌, ◌+◌, ◌<◌, ◌≤◌, length};
ghost use Rattle.sig_core.specs.Step.{HasRoom, IsTaken, joined, sends_only};
ghost use Rattle.dih_node.specs.Orders.{fence_row, install_row};
ghost use Rattle.dih_node.specs.State.{can_serve, go_on_if};

use crate::dih::Dih;
use crate::orders::greater;
use sig_core::{Body, HostSignal, MembershipSignal, Outs, Work, epochs, membership};

impl Dih {
    // Goes on with the requests that are held, if some are to be served.
    pub(crate) fn go_on_if(&self, more: bool, out: &mut Outs)
        requires { length out.old.sends < 16 }
        ensures effects { out.new ≡ joined out.old (sends_only (go_on_if self.now.node more)) }
        ensures few { length out.new.sends ≤ length out.old.sends + 1 }
    {
        if more {
            let work = Work::Held;
            out.send(
                epochs(self.node),
                Body::Host(HostSignal::Continue { work, at: 0 }),
            );
        }
    }

    // Serves the requests that are held, where epochs are given.
    pub(crate) fn serve_held(&self, out: &mut Outs)
        requires { length out.old.sends < 16 }
        ensures effects { out.new ≡ joined out.old (sends_only (go_on_if self.now.node (can_serve self.now))) }
        ensures few { length out.new.sends ≤ length out.old.sends + 1 }
    {
        self.go_on_if(self.gives() && !self.held.is_empty(), out);
    }

    // A view of this number is promised.
    #[tactic(auto, unfolding(crate::specs::Orders::fence_row))]
    pub(crate) fn promise(&mut self, number: u64, out: &mut Outs)
        requires { HasRoom out.old }
        ensures { IsTaken (fence_row self.old number) self.new out.old out.new }
    {
        self.fence = greater(self.fence, number);
        out.send(
            membership(self.node),
            Body::Membership(MembershipSignal::FenceConf),
        );
    }

    // A view of this number is installed.
    #[tactic(auto, unfolding(crate::specs::Orders::install_row))]
    pub(crate) fn enter_view(&mut self, number: u64, out: &mut Outs)
        requires { length out.old.sends + 1 ≤ 16 }
        ensures taken { IsTaken (install_row self.old number) self.new out.old out.new }
        ensures few { length out.new.sends ≤ length out.old.sends + 1 }
        ensures unmarked { out.new.marks ≡ out.old.marks }
    {
        self.number = number;
        self.fence = greater(self.fence, number);
        self.serve_held(out);
    }
}
