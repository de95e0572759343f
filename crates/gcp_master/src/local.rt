//! Local checkpoints: the rows of all full members write what they have, a global checkpoint follows,
//! and then they switch to what they wrote.
ghost use Rattle.std.specs.Prelude.{◌≡◌, ◌+◌, ◌≤◌, [], length, true};
ghost use Rattle.sig_core.specs.declared.place.BlockId.TheVariants.{Lqh};
ghost use Rattle.sig_core.specs.Step.{HasRoom, IsTaken, joined, sends_only};
ghost use Rattle.gcp_master.specs.Closing.{switching_if};
ghost use Rattle.gcp_master.specs.Local.{all_local, counted_local, counts_local, switched_row, walk_row};
ghost use Rattle.gcp_master.specs.Local.{walked_row};
ghost use Rattle.gcp_master.specs.Sends.{orders_at};
ghost use Rattle.gcp_master.specs.Spent.{walked_spent};
ghost use Rattle.gcp_master.specs.State.{no_local};

use crate::master::{GcpMaster, is_president};
use crate::orders::Order;
use crate::voices::{VOICES, Voice, Voices, has_all, is_among, is_heard};
use sig_core::{BlockId, Body, CLIENT, CheckpointSignal, Member, Outs, Place};

/// How far a local checkpoint has come.
#[derive(Clone, Copy, Debug, PartialEq, Eq)]
pub enum LocalStage {
    /// None is under way.
    Idle,
    /// The rows of the full members are to write what they have.
    Walking,
    /// All have, and a global checkpoint is to end that is begun after that.
    Closing,
    /// The rows of the full members are to switch, since this epoch is durable.
    Switching { epoch: u64 },
}

/// A local checkpoint: how far it has come, and who has confirmed what is ordered there.
#[derive(Clone, Copy)]
pub struct Local {
    pub stage: LocalStage,
    pub voices: Voices,
}

impl Local {
    /// None is under way.
    pub fn none() -> Local
        ensures { result ≡ no_local }
    {
        Local::at(LocalStage::Idle)
    }

    /// What is of it behind a global checkpoint, which ended this epoch: where it asked for that the
    /// rows are to switch.
    pub fn behind(self, epoch: u64, asked: bool) -> Local
        ensures { result ≡ switching_if self epoch asked }
    {
        if asked {
            Local::at(LocalStage::Switching { epoch })
        } else {
            self
        }
    }

    /// One that comes to this stage: nobody has confirmed.
    pub fn at(stage: LocalStage) -> Local
        ensures { result ≡ record { stage = stage; voices = [] } }
    {
        Local {
            stage,
            voices: Voices::new(),
        }
    }
}

impl GcpMaster {
    // Whether a confirmation of a local checkpoint counts.
    #[tactic(auto, unfolding(crate::specs::Local::counts_local))]
    fn counts_local(&self, voice: &Voice) -> bool
        ensures { result ≡ counts_local self.now voice.now }
    {
        let voices = self.local.voices.as_slice();
        is_among(self.view.full.as_slice(), &voice.member)
            && (!is_heard(voices, voice) && voices.len() < VOICES)
    }

    // Counts it.
    #[tactic(auto, unfolding(crate::specs::Local::counts_local))]
    fn count_local(&mut self, voice: Voice)
        requires { counts_local self.old voice ≡ true }
        ensures { self.new ≡ counted_local self.old voice }
    {
        self.local.voices.push(voice);
    }

    // Whether the rows of each full member have confirmed.
    #[tactic(auto, unfolding(crate::specs::Local::all_local))]
    fn all_local(&self) -> bool
        ensures { result ≡ all_local self.now }
    {
        has_all(1, self.local.voices.as_slice(), self.view.full.as_slice())
    }

    // One is asked for: it begins where none is under way.
    #[tactic(auto, unfolding(crate::specs::Local::walk_row))]
    pub(crate) fn walk(&mut self, out: &mut Outs)
        requires { HasRoom out.old }
        ensures { IsTaken (walk_row self.old) self.new out.old out.new }
    {
        if let LocalStage::Idle = self.local.stage {
            if is_president(&self.member, &self.view) {
                self.local = Local::at(LocalStage::Walking);
                send_orders(Order::Walk, self.view.full.as_slice(), out);
            }
        }
    }

    // The rows of a member have written what they had. Answers whether the numbers of epochs are used up.
    #[tactic(auto, unfolding(crate::specs::Local::walked_row, crate::specs::Spent::walked_spent))]
    pub(crate) fn hear_walked(&mut self, voice: Voice, out: &mut Outs) -> bool
        requires { HasRoom out.old }
        ensures taken { IsTaken (walked_row self.old voice) self.new out.old out.new }
        ensures spent { result ≡ walked_spent self.old voice }
    {
        if let LocalStage::Walking = self.local.stage {
            if self.counts_local(&voice) {
                self.count_local(voice);
                let all = self.all_local();
                if all {
                    self.local = Local::at(LocalStage::Closing);
                    return self.ask(self.asked.and_local(), out);
                }
            }
        }
        false
    }

    // The rows of a member have switched.
    #[tactic(auto, unfolding(crate::specs::Local::switched_row))]
    pub(crate) fn hear_switched(&mut self, voice: Voice, out: &mut Outs)
        requires { HasRoom out.old }
        ensures { IsTaken (switched_row self.old voice) self.new out.old out.new }
    {
        if let LocalStage::Switching { epoch } = self.local.stage {
            if self.counts_local(&voice) {
                self.count_local(voice);
                let all = self.all_local();
                if all {
                    self.local = Local::none();
                    out.send(CLIENT, Body::Checkpoint(CheckpointSignal::LcpRep { epoch }));
                }
            }
        }
    }
}

// An order to the rows of each of these members, in one event.
fn send_orders(order: Order, members: &[Member], out: &mut Outs)
    requires { length out.old.sends + length members.now ≤ 16 }
    ensures { out.new ≡ joined out.old (sends_only (orders_at Lqh order members.now)) }
{
    for member in members {
        let to = Place {
            node: member.node,
            block: BlockId::Lqh,
        };
        out.send(to, order.body());
    }
}
