//! How a closing begins.
ghost use Rattle.std.specs.Prelude.{◌≡◌, ◌+◌, ◌<◌, ◌≤◌, length};
ghost use Rattle.sig_core.specs.Step.{IsTaken};
ghost use Rattle.gcp_master.specs.Begin.{begin_global, begin_micro, begins, begun, is_global_asked};

use crate::master::GcpMaster;
use crate::numbers::{next_global, next_micro};
use crate::phase::{Asked, Phase, Run};
use crate::voices::Voices;
use sig_core::{Mark, Outs, StopCause};

// Whether a global checkpoint is asked for, by whom ever.
fn is_global_asked(asked: Asked) -> bool
    ensures { result ≡ is_global_asked asked }
{
    asked.global || (asked.copy || asked.local)
}

impl GcpMaster {
    // A global checkpoint begins, which this epoch follows. Answers whether there is no such number.
    fn begin_global(&mut self, current: u64, next: Option<u64>) -> bool
        ensures state { self.new ≡ (begin_global self.old current next).state }
        ensures spent { result ≡ (begin_global self.old current next).spent }
    {
        let Some(next) = next else {
            return true;
        };
        let run = Run {
            epoch: current,
            next,
            copy: self.asked.copy,
            local: self.asked.local,
        };
        self.phase = Phase::Preparing { run };
        self.asked = Asked {
            global: false,
            copy: false,
            local: false,
            micro: self.asked.micro,
        };
        self.voices = Voices::new();
        false
    }

    // A micro closing begins, which this epoch follows. Answers whether there is no such number.
    fn begin_micro(&mut self, current: u64, next: Option<u64>) -> bool
        ensures state { self.new ≡ (begin_micro self.old current next).state }
        ensures spent { result ≡ (begin_micro self.old current next).spent }
    {
        let Some(next) = next else {
            return true;
        };
        let run = Run {
            epoch: current,
            next,
            copy: false,
            local: false,
        };
        self.phase = Phase::Preparing { run };
        self.asked = Asked {
            global: self.asked.global,
            copy: self.asked.copy,
            local: self.asked.local,
            micro: false,
        };
        self.voices = Voices::new();
        false
    }

    // Begins what is asked for, a global checkpoint first. Answers whether the numbers of epochs are
    // used up.
    #[tactic(auto, unfolding(crate::specs::Begin::begun))]
    fn begin_asked(&mut self, current: u64) -> bool
        ensures state { self.new ≡ (begun self.old current).state }
        ensures spent { result ≡ (begun self.old current).spent }
    {
        if is_global_asked(self.asked) {
            self.begin_global(current, next_global(current))
        } else if self.asked.micro {
            self.begin_micro(current, next_micro(current))
        } else {
            self.phase = Phase::Resting { current };
            self.voices = Voices::new();
            false
        }
    }

    // Nothing is under way any more: begins what is asked for. Where a list is under way it goes on
    // with that. Answers whether the numbers of epochs are used up: then the host stops.
    #[tactic(auto, unfolding(crate::specs::Begin::begins))]
    pub(crate) fn begin(&mut self, current: u64, listed: bool, out: &mut Outs) -> bool
        requires sends { length out.old.sends + 12 ≤ 16 }
        requires marks { length out.old.marks < 16 }
        ensures taken { IsTaken (begins self.old current listed) self.new out.old out.new }
        ensures spent { result ≡ (begun self.old current).spent }
    {
        if self.begin_asked(current) {
            let cause = StopCause::Clock;
            out.mark(Mark::Stopped { cause });
            return true;
        }
        if !listed {
            self.send_list(0, out);
        }
        false
    }
}
