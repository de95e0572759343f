//! A primary copies one fragment after the other.
ghost use Rattle.std.specs.Prelude.{◌≡◌, ◌+◌, ◌≤◌, OnOk, OnErr, length};
ghost use Rattle.sig_core.specs.Step.{HasRoom, IsTaken, IsUntouched};
ghost use Rattle.copy_block.specs.Feeding.{ending, fragment_row, going, next_by, passing, scans};

use crate::copying::CopyBlock;
use crate::stage::{Feed, Task};
use sig_core::{Body, CopyingSignal, Key, NoMemory, Outs, copying, rows_of};

impl CopyBlock {
    /// A fragment is to be copied: at once, or behind the others.
    ///
    /// # Errors
    /// `NoMemory`, and then nothing has happened.
    #[tactic(auto, unfolding(crate::specs::Feeding::fragment_row))]
    pub(crate) fn take_fragment(&mut self, task: Task, out: &mut Outs) -> Result<(), NoMemory>
        requires { HasRoom out.old }
        ensures ok { OnOk result (IsTaken (fragment_row self.old task) self.new out.old out.new) }
        ensures err { OnErr result (IsUntouched self.old self.new out.old out.new) }
    {
        match &self.feed {
            Feed::Idle => self.scan(task, 0, out),
            _ => self.queue.push(task)?,
        }
        Ok(())
    }

    // Asks for the next row of a fragment, from a place on.
    fn scan(&mut self, task: Task, at: u64, out: &mut Outs)
        requires { length out.old.sends + 1 ≤ 16 }
        ensures { IsTaken (scans self.old task at) self.new out.old out.new }
    {
        self.feed = Feed::Scanning { task };
        let fragment = task.fragment;
        out.send(
            rows_of(self.node),
            Body::Copying(CopyingSignal::LqhScanReq { fragment, at }),
        );
    }

    /// Goes on behind a row; where nothing is, the fragment is copied.
    #[tactic(auto, unfolding(crate::specs::Feeding::going))]
    pub(crate) fn go(&mut self, task: Task, next: Option<u64>, out: &mut Outs)
        requires { length out.old.sends + 2 ≤ 16 }
        ensures { IsTaken (going self.old task next) self.new out.old out.new }
    {
        match next {
            Some(at) => self.scan(task, at, out),
            None => self.end(task, out),
        }
    }

    // A fragment is copied: who asked for it is told, and the next one is begun.
    #[tactic(auto, unfolding(crate::specs::Feeding::ending))]
    fn end(&mut self, task: Task, out: &mut Outs)
        requires { length out.old.sends + 2 ≤ 16 }
        ensures { IsTaken (ending self.old task) self.new out.old out.new }
    {
        out.send(
            copying(task.from),
            Body::Copying(CopyingSignal::CopyFragConf),
        );
        match self.queue.first().copied() {
            None => self.feed = Feed::Idle,
            Some(next) => {
                self.queue.remove(0);
                self.scan(next, 0, out);
            }
        }
    }

    /// Lets go of the lock of a row, and goes on behind it.
    #[tactic(auto, unfolding(crate::specs::Feeding::passing))]
    pub(crate) fn pass(&mut self, task: Task, key: &Key, next: Option<u64>, out: &mut Outs)
        requires { length out.old.sends + 3 ≤ 16 }
        ensures { IsTaken (passing self.old task key.now next) self.new out.old out.new }
    {
        let body = CopyingSignal::LqhUnlock { key: *key };
        out.send(rows_of(self.node), Body::Copying(body));
        self.go(task, next, out);
    }
}
