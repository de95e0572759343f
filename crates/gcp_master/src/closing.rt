//! The phases of a closing, by the confirmations of the members.
ghost use Rattle.std.specs.Prelude.{◌≡◌, ◌+◌, ◌≤◌, length, true};
ghost use Rattle.sig_core.specs.Step.{HasRoom, IsTaken};
ghost use Rattle.gcp_master.specs.Closing.{close_if_all, copied_if, copy_row, ended, finish_row, note_row, noted_by};
ghost use Rattle.gcp_master.specs.Closing.{prepare_row, save_row, takeover_row};
ghost use Rattle.gcp_master.specs.Numbers.{is_first};
ghost use Rattle.gcp_master.specs.Spent.{copied_spent_if, copy_spent, ended_spent, note_spent, noted_spent_by};

use crate::master::GcpMaster;
use crate::numbers::is_first;
use crate::orders::Ended;
use crate::phase::{Phase, Run};
use crate::voices::{Voice, Voices};
use sig_core::{Mark, Outs};

impl GcpMaster {
    #[tactic(auto, unfolding(crate::specs::Closing::prepare_row))]
    pub(crate) fn hear_prepared(&mut self, voice: Voice, epoch: u64, out: &mut Outs)
        requires { HasRoom out.old }
        ensures { IsTaken (prepare_row self.old voice epoch) self.new out.old out.new }
    {
        if let Phase::Preparing { run } = self.phase {
            if run.epoch == epoch && self.counts(&voice) {
                self.count(voice);
                if self.all_in(1) {
                    self.enter(Phase::Committing { run }, out);
                }
            }
        }
    }

    #[tactic(auto, unfolding(crate::specs::Closing::finish_row))]
    pub(crate) fn hear_finished(&mut self, voice: Voice, epoch: u64, out: &mut Outs)
        requires { HasRoom out.old }
        ensures { IsTaken (finish_row self.old voice epoch) self.new out.old out.new }
    {
        if let Phase::Committing { run } = self.phase {
            if run.epoch == epoch && self.counts(&voice) {
                self.count(voice);
                self.close_if_all(run, out);
            }
        }
    }

    #[tactic(auto, unfolding(crate::specs::Closing::takeover_row))]
    pub(crate) fn hear_takeover(&mut self, out: &mut Outs)
        requires { HasRoom out.old }
        ensures { IsTaken (takeover_row self.old) self.new out.old out.new }
    {
        self.owed = false;
        if let Phase::Committing { run } = self.phase {
            self.close_if_all(run, out);
        }
    }

    // The epoch is closed if nothing up to it is unfinished at any member and no takeover has yet to
    // end.
    #[tactic(auto, unfolding(crate::specs::Closing::close_if_all))]
    fn close_if_all(&mut self, run: Run, out: &mut Outs)
        requires { HasRoom out.old }
        ensures { IsTaken (close_if_all self.old run) self.new out.old out.new }
    {
        if !self.owed && self.all_in(1) {
            out.mark(Mark::Closed { epoch: run.epoch });
            self.enter(Phase::Closing { run }, out);
        }
    }

    // A block of a member has noted that the epoch is closed. Answers whether the numbers of epochs are
    // used up.
    #[tactic(auto, unfolding(crate::specs::Closing::note_row, crate::specs::Spent::note_spent))]
    pub(crate) fn hear_noted(&mut self, voice: Voice, epoch: u64, out: &mut Outs) -> bool
        requires { HasRoom out.old }
        ensures taken { IsTaken (note_row self.old voice epoch) self.new out.old out.new }
        ensures spent { result ≡ note_spent self.old voice epoch }
    {
        if let Phase::Closing { run } = self.phase {
            if run.epoch == epoch && self.counts(&voice) {
                self.count(voice);
                if self.all_in(2) {
                    return self.go_on_noted(run, out);
                }
            }
        }
        false
    }

    // All have noted that the epoch is closed.
    fn go_on_noted(&mut self, run: Run, out: &mut Outs) -> bool
        requires { HasRoom out.old }
        ensures taken { IsTaken (noted_by self.old run (is_first run.next)) self.new out.old out.new }
        ensures spent { result ≡ noted_spent_by self.old run (is_first run.next) }
    {
        if is_first(run.next) {
            self.enter(Phase::Saving { run }, out);
            false
        } else {
            self.end(run, Ended::Micro { epoch: run.epoch }, out)
        }
    }

    #[tactic(auto, unfolding(crate::specs::Closing::save_row))]
    pub(crate) fn hear_saved(&mut self, voice: Voice, epoch: u64, out: &mut Outs)
        requires { HasRoom out.old }
        ensures { IsTaken (save_row self.old voice epoch) self.new out.old out.new }
    {
        if let Phase::Saving { run } = self.phase {
            if run.epoch == epoch && self.counts(&voice) {
                self.count(voice);
                if self.all_in(1) {
                    self.enter(Phase::Copying { run }, out);
                }
            }
        }
    }

    // A member has written the system file. Answers whether the numbers of epochs are used up.
    #[tactic(auto, unfolding(crate::specs::Closing::copy_row, crate::specs::Spent::copy_spent))]
    pub(crate) fn hear_copied(&mut self, voice: Voice, epoch: u64, out: &mut Outs) -> bool
        requires { HasRoom out.old }
        ensures taken { IsTaken (copy_row self.old voice epoch) self.new out.old out.new }
        ensures spent { result ≡ copy_spent self.old voice epoch }
    {
        if let Phase::Copying { run } = self.phase {
            if run.epoch == epoch && self.counts(&voice) {
                self.count(voice);
                let all_copied = self.all_in(1);
                if all_copied {
                    return self.end_global(run, out);
                }
            }
        }
        false
    }

    // The epoch is durable. A local checkpoint that asked for that goes on.
    fn end_global(&mut self, run: Run, out: &mut Outs) -> bool
        requires { HasRoom out.old }
        ensures taken { IsTaken (copied_if self.old run true) self.new out.old out.new }
        ensures spent { result ≡ copied_spent_if self.old run true }
    {
        let what = Ended::Global {
            epoch: run.epoch,
            copy: run.copy,
            local: run.local,
        };
        self.local = self.local.behind(run.epoch, run.local);
        out.mark(Mark::Durable { epoch: run.epoch });
        self.end(run, what, out)
    }

    // A closing has ended, and what is asked for begins. Answers whether the numbers of epochs are used
    // up.
    fn end(&mut self, run: Run, what: Ended, out: &mut Outs) -> bool
        requires sends { length out.old.sends + 12 ≤ 16 }
        requires marks { length out.old.marks + 11 ≤ 16 }
        ensures taken { IsTaken (ended self.old run what) self.new out.old out.new }
        ensures spent { result ≡ ended_spent self.old run what }
    {
        self.phase = Phase::Resting { current: run.next };
        self.voices = Voices::new();
        self.front = Some(what);
        self.begin(run.next, false, out)
    }
}
