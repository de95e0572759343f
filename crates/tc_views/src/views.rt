//! Fences, and installations of views.
ghost use Rattle.std.specs.Prelude.{◌≡◌, ◌+◌, ◌<◌, ◌≤◌, length};
ghost use Rattle.sig_core.specs.Step.{HasRoom, IsTaken, joined, sends_only};
ghost use Rattle.tc_views.specs.State.{go_on_with};
ghost use Rattle.tc_views.specs.Views.{fence_row, greater, install_row, resume_first, resume_row, tasks_at};

use crate::coordinator::Coordinator;
use sig_core::{
    Actor, Body, HostSignal, MembershipSignal, Outs, View, Work, coordinator, membership,
};
use std::mem;
use tc_block::Task;

impl Coordinator {
    // A view is promised: it dooms the transactions that can't go on in it.
    #[tactic(auto, unfolding(crate::specs::Views::fence_row))]
    pub(crate) fn promise(&mut self, proposal: &View, out: &mut Outs)
        requires { HasRoom out.old }
        ensures { IsTaken (fence_row self.old proposal.now) self.new out.old out.new }
    {
        self.fence = greater(self.fence, proposal.number);
        self.tc
            .list_doomed(proposal, self.doomed.as_slice(), &mut self.spare);
        mem::swap(&mut self.doomed, &mut self.spare);
        out.send(
            membership(self.tc.node()),
            Body::Membership(MembershipSignal::FenceConf),
        );
    }

    // A view is installed: each transaction is judged as it stands.
    #[tactic(auto, unfolding(crate::specs::Views::install_row))]
    pub(crate) fn enter_view(&mut self, view: &View, out: &mut Outs)
        requires { length out.old.sends + 1 ≤ 16 }
        ensures taken { IsTaken (install_row self.old view.now) self.new out.old out.new }
        ensures few { length out.new.sends ≤ length out.old.sends + 1 }
        ensures unmarked { out.new.marks ≡ out.old.marks }
    {
        self.judge(view.number);
        self.tc.install(view, out);
        self.number = view.number;
        self.fence = greater(self.fence, view.number);
        self.go_on_with_left(out);
    }

    // Lists what is left to do, unless a later view than that of this number is promised.
    fn judge(&mut self, number: u64)
        ensures { self.new ≡ record self.old { left = tasks_at self.old number } }
    {
        if number < self.fence {
            self.left.clear();
        } else {
            self.tc.list_tasks(self.doomed.as_slice(), &mut self.left);
        }
    }

    // Goes on with what is left to do, if something is.
    fn go_on_with_left(&self, out: &mut Outs)
        requires { length out.old.sends < 16 }
        ensures effects { out.new ≡ joined out.old (sends_only (go_on_with self.now.tc.node self.now.left)) }
        ensures few { length out.new.sends ≤ length out.old.sends + 1 }
    {
        if !self.left.is_empty() {
            let work = Work::Installation;
            out.send(
                coordinator(self.tc.node()),
                Body::Host(HostSignal::Continue { work, at: 0 }),
            );
        }
    }

    // Goes on with what the installation left to do, unless another view was installed since.
    #[tactic(auto, unfolding(crate::specs::Views::resume_row))]
    pub(crate) fn go_on(&mut self, number: u64, out: &mut Outs)
        requires { HasRoom out.old }
        ensures { IsTaken (resume_row self.old number) self.new out.old out.new }
    {
        if number == self.number {
            if let Some(task) = self.left.first().copied() {
                self.left.remove(0);
                self.resume(&task, out);
            }
        }
    }

    // Does one thing, and goes on with what is left.
    #[tactic(auto, using(tc_block::proofs::CountLemmas::counts), unfolding(crate::specs::State::within))]
    fn resume(&mut self, task: &Task, out: &mut Outs)
        requires { HasRoom out.old }
        ensures { IsTaken (resume_first self.old task.now) self.new out.old out.new }
    {
        self.tc.resume(task, self.number, out);
        self.forget_doomed();
        self.go_on_with_left(out);
    }
}

// The greater of two.
fn greater(one: u64, other: u64) -> u64
    ensures { result ≡ greater one other }
{
    if one < other { other } else { one }
}
