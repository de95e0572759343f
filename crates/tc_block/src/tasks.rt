//! What the promise and the installation of views make of a coordinator's transactions.
ghost use Rattle.std.specs.Prelude.{◌≡◌, ◌+◌, ◌≤◌, ◌<◌, ◌++◌, length};
ghost use Rattle.std.specs.Vec.{vec_capacity};
ghost use Rattle.sig_core.specs.Step.{HasRoom, IsTaken};
ghost use Rattle.tc_block.specs.Doom.{doomed_in, doomed_of};
ghost use Rattle.tc_block.specs.Live.{is_live};
ghost use Rattle.tc_block.specs.Resume.{resume_step, task_of, tasks_in};

use crate::doom::is_among;
use crate::task::Task;
use crate::tc::Tc;
use crate::transaction::Transaction;
use sig_core::{Outs, TxId, View};

impl Tc {
    /// Its node.
    pub fn node(&self) -> u8
        ensures { result ≡ self.now.node }
    {
        self.node
    }

    /// Whether it hasn't forgotten the transaction.
    pub fn is_live(&self, tx: &TxId) -> bool
        ensures { result ≡ is_live self.now tx.now }
    {
        self.live.get_index_of(tx).is_some()
    }

    /// Puts down the transactions that are doomed when this view is promised, with those that were
    /// before, in the order in which they began. Takes no memory.
    #[tactic(auto, unfolding(crate::specs::Doom::doomed_in))]
    pub fn list_doomed(&self, view: &View, before: &[TxId], doomed: &mut Vec<TxId>)
        requires room { length self.now.live ≤ vec_capacity doomed.old }
        ensures doomed { doomed.new.items ≡ doomed_in view.now before.now self.now.live }
        ensures capacity { vec_capacity doomed.new ≡ vec_capacity doomed.old }
    {
        doomed.clear();
        for (tx, t) in self.live.iter() {
            add_doomed(tx, t, view, before, doomed);
        }
    }

    /// Puts down what the installation of a view leaves to do for each transaction, in the order in
    /// which they began. Takes no memory.
    #[tactic(auto, unfolding(crate::specs::Resume::tasks_in))]
    pub fn list_tasks(&self, doomed: &[TxId], tasks: &mut Vec<Task>)
        requires room { length self.now.live ≤ vec_capacity tasks.old }
        ensures tasks { tasks.new.items ≡ tasks_in doomed.now self.now.live }
        ensures capacity { vec_capacity tasks.new ≡ vec_capacity tasks.old }
    {
        tasks.clear();
        for (tx, t) in self.live.iter() {
            add_task(tx, t, doomed, tasks);
        }
    }

    /// Does for a transaction what an installation left to do, in the view of this number, where the
    /// transaction has gone no other way since.
    #[tactic(auto, using(crate::proofs::LiveLemmas::live), unfolding(crate::specs::Resume::resume_step))]
    pub fn resume(&mut self, task: &Task, number: u64, out: &mut Outs)
        requires { HasRoom out.old }
        ensures { IsTaken (resume_step self.old task.now number) self.new out.old out.new }
    {
        let Some(at) = self.live.get_index_of(&task.tx) else {
            return;
        };
        let t = &mut self.live[at];
        let over = t.resume(self.node, &self.layout, task.tx, task.verdict, number, out);
        if over {
            self.forget(at);
        }
    }
}

// Puts down a transaction, if it is doomed or was before.
fn add_doomed(tx: &TxId, t: &Transaction, view: &View, before: &[TxId], doomed: &mut Vec<TxId>)
    requires { length doomed.old.items < vec_capacity doomed.old }
    ensures doomed { doomed.new.items ≡ doomed.old.items ++ doomed_of view.now before.now (tx.now, t.now) }
    ensures few { length doomed.new.items ≤ length doomed.old.items + 1 }
    ensures capacity { vec_capacity doomed.new ≡ vec_capacity doomed.old }
{
    if is_among(before, tx) || t.is_doomed_by(view) {
        doomed.push_reserved(*tx);
    }
}

// Puts down what is left to do for a transaction, if anything.
fn add_task(tx: &TxId, t: &Transaction, doomed: &[TxId], tasks: &mut Vec<Task>)
    requires { length tasks.old.items < vec_capacity tasks.old }
    ensures tasks { tasks.new.items ≡ tasks.old.items ++ task_of doomed.now (tx.now, t.now) }
    ensures few { length tasks.new.items ≤ length tasks.old.items + 1 }
    ensures capacity { vec_capacity tasks.new ≡ vec_capacity tasks.old }
{
    if let Some(verdict) = t.verdict(is_among(doomed, tx)) {
        tasks.push_reserved(Task { tx: *tx, verdict });
    }
}
