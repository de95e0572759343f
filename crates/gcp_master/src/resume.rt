//! How a master goes on in a view that was installed.
ghost use Rattle.std.specs.Prelude.{◌≡◌};
ghost use Rattle.sig_core.specs.Step.{HasRoom, IsTaken};
ghost use Rattle.gcp_master.specs.Resume.{in_view, learned_if, order_row, resume_at, state_row, still_asked};
ghost use Rattle.gcp_master.specs.Spent.{spent_at, state_spent};

use crate::known::{Known, Told};
use crate::local::Local;
use crate::master::{GcpMaster, is_president};
use crate::phase::{Asked, Phase};
use crate::voices::{Voice, Voices, is_among};
use sig_core::{Outs, View};

// What is still asked for when a view is installed.
fn still_asked(asked: Asked, president: bool) -> Asked
    ensures { result ≡ still_asked asked president }
{
    if president {
        Asked {
            global: asked.global,
            copy: false,
            local: false,
            micro: asked.micro,
        }
    } else {
        Asked {
            global: false,
            copy: false,
            local: false,
            micro: false,
        }
    }
}

// What is known when a block of a member has told this; what a starting member tells is left out.
fn learn_if(known: Known, told: Told, full: bool) -> Known
    ensures { result ≡ learned_if known told full }
{
    if full { known.learn(told) } else { known }
}

impl GcpMaster {
    #[tactic(auto, unfolding(crate::specs::Resume::order_row))]
    pub(crate) fn gather(&mut self, out: &mut Outs)
        requires { HasRoom out.old }
        ensures { IsTaken (order_row self.old) self.new out.old out.new }
    {
        if let Phase::Unordered = self.phase {
            let known = Known::nothing();
            self.enter(Phase::Gathering { known }, out);
        }
    }

    // A block of a member tells how far it is. Answers whether the numbers of epochs are used up.
    #[tactic(auto, unfolding(crate::specs::Resume::state_row, crate::specs::Spent::state_spent))]
    pub(crate) fn hear_state(&mut self, voice: Voice, told: Told, out: &mut Outs) -> bool
        requires { HasRoom out.old }
        ensures taken { IsTaken (state_row self.old voice told) self.new out.old out.new }
        ensures spent { result ≡ state_spent self.old voice told }
    {
        if let Phase::Gathering { known } = self.phase {
            let full = is_among(self.view.full.as_slice(), &voice.member);
            let known = learn_if(known, told, full);
            if self.counts(&voice) {
                self.count(voice);
                let all = self.all_in(2);
                self.phase = Phase::Gathering { known };
                if all {
                    return self.resume_at(known.resume(), out);
                }
            }
        }
        false
    }

    // All have told: the master goes on in this phase.
    fn resume_at(&mut self, phase: Phase, out: &mut Outs) -> bool
        requires { HasRoom out.old }
        ensures taken { IsTaken (resume_at self.old phase) self.new out.old out.new }
        ensures spent { result ≡ spent_at self.old phase }
    {
        match phase {
            Phase::Resting { current } => self.begin(current, false, out),
            _ => {
                self.enter(phase, out);
                false
            }
        }
    }

    // Another view is installed.
    #[tactic(auto, unfolding(crate::specs::Resume::in_view))]
    pub(crate) fn enter_view(&mut self, view: &View)
        ensures { self.new ≡ in_view self.old view.now }
    {
        let president = is_president(&self.member, view);
        self.view = *view;
        self.phase = Phase::Unordered;
        self.front = None;
        self.asked = still_asked(self.asked, president);
        self.owed = true;
        self.voices = Voices::new();
        self.local = Local::none();
    }
}
