//! What becomes of a proposal.
ghost use Rattle.std.specs.Prelude.{◌≡◌, ◌≤◌, ◌<◌, IfOk, OnOk, OnErr, length};
ghost use Rattle.sig_core.specs.declared.mark.Mark.TheVariants.{Installed};
ghost use Rattle.sig_core.specs.Step.{HasRoom, IsTaken, IsUntouched, and_mark};
ghost use Rattle.qmgr_block.specs.Decide.{awaits, confirm_row, confirmed_one, granted_row, heard, is_asked};
ghost use Rattle.qmgr_block.specs.Decide.{needs_no_grant, refused_cause, refused_row, stop_row, unpromised_row};
ghost use Rattle.qmgr_block.specs.Decide.{with_unlike};
ghost use Rattle.qmgr_block.specs.Settle.{grant_settles, promise_settles, settled_by_all};
ghost use Rattle.qmgr_block.specs.State.{sending_all};

use crate::known::{Known, Proposal};
use crate::sends::send_stops;
use crate::sets::{is_among, is_in, members_of, without};
use frag_map::whole_group;
use sig_core::{
    ARBITER, Body, Held, Mark, Member, Members, MembershipSignal, NoMemory, Outs, StopCause, View,
};
use std::alloc::Global;

impl Proposal {
    // Whether it has this number and awaits this member.
    fn awaits(&self, number: u64, member: &Member) -> bool
        ensures { result ≡ awaits self.now number member.now }
    {
        self.view.number == number && is_among(self.awaited.as_slice(), member)
    }

    // The proposal when this member has confirmed.
    fn heard(&self, member: &Member) -> Proposal
        ensures { result ≡ heard self.now member.now }
    {
        let awaited = without(&self.awaited, &[*member]);
        Proposal { awaited, ..*self }
    }

    // Whether the arbitrator was asked for it.
    fn is_asked(&self) -> bool
        ensures { result ≡ is_asked self.now }
    {
        self.awaited.as_slice().is_empty()
    }
}

impl Known {
    // Whether no other half can go on, so that the arbitrator needn't be asked.
    fn needs_no_grant(&self, p: &Proposal) -> bool
        ensures { result ≡ needs_no_grant self.now p.now }
    {
        p.joining.is_none() && whole_group(&p.view, &self.layout.shape())
    }

    /// A member has promised: when all have, settles on the view or asks the arbitrator. Answers the view
    /// that it settles on.
    ///
    /// # Errors
    /// `NoMemory`, and then nothing has happened.
    #[tactic(auto, unfolding(crate::specs::Decide::confirm_row, crate::specs::Settle::promise_settles))]
    pub fn confirm(
        &mut self,
        alloc: Global,
        number: u64,
        member: &Member,
        out: &mut Outs,
    ) -> Result<Option<Held<View>>, NoMemory>
        requires { HasRoom out.old }
        ensures settles { IfOk result (λ view. view ≡ promise_settles self.old number member.now) }
        ensures ok { OnOk result (IsTaken (confirm_row self.old number member.now) self.new out.old out.new) }
        ensures err { OnErr result (IsUntouched self.old self.new out.old out.new) }
    {
        let Some(p) = &self.outstanding else {
            return Ok(None);
        };
        if p.awaits(number, member) {
            let next = p.heard(member);
            self.hear_from(alloc, &next, out)
        } else {
            Ok(None)
        }
    }

    // The outstanding proposal has come so far.
    fn hear_from(
        &mut self,
        alloc: Global,
        p: &Proposal,
        out: &mut Outs,
    ) -> Result<Option<Held<View>>, NoMemory>
        requires { HasRoom out.old }
        ensures settles { IfOk result (λ view. view ≡ settled_by_all self.old p.now p.now.awaited) }
        ensures ok { OnOk result (IsTaken (confirmed_one self.old p.now p.now.awaited) self.new out.old out.new) }
        ensures err { OnErr result (IsUntouched self.old self.new out.old out.new) }
    {
        if !p.is_asked() {
            self.outstanding = Some(*p);
            return Ok(None);
        }
        if self.needs_no_grant(p) {
            let view = settle(alloc, &p.view, out)?;
            self.outstanding = Some(*p);
            return Ok(Some(view));
        }
        let question = MembershipSignal::ArbitReq {
            number: p.view.number,
            members: members_of(&p.view),
            joining: p.joining,
        };
        out.send(ARBITER, Body::Membership(question));
        self.outstanding = Some(*p);
        Ok(None)
    }

    /// The arbitrator has granted a number: settles on the outstanding proposal, if it is that. Answers
    /// the view that it settles on.
    ///
    /// # Errors
    /// `NoMemory`, and then nothing has happened.
    #[tactic(auto, unfolding(crate::specs::Decide::granted_row, crate::specs::Settle::grant_settles))]
    pub fn grant(
        &mut self,
        alloc: Global,
        number: u64,
        out: &mut Outs,
    ) -> Result<Option<Held<View>>, NoMemory>
        requires { HasRoom out.old }
        ensures settles { IfOk result (λ view. view ≡ grant_settles self.old number) }
        ensures ok { OnOk result (IsTaken (granted_row self.old number) self.new out.old out.new) }
        ensures err { OnErr result (IsUntouched self.old self.new out.old out.new) }
    {
        match &self.outstanding {
            Some(p) if p.view.number == number && p.is_asked() && p.lost.is_none() => {
                Ok(Some(settle(alloc, &p.view, out)?))
            }
            _ => Ok(None),
        }
    }

    /// The arbitrator has refused, and keeps these: the set of the outstanding proposal stops.
    #[tactic(auto, unfolding(crate::specs::Decide::refused_row))]
    pub fn refused(&self, number: u64, members: &Members, out: &mut Outs)
        requires { HasRoom out.old }
        ensures { IsTaken (refused_row self.now number members.now) self.now out.old out.new }
    {
        match &self.outstanding {
            Some(p) if p.is_asked() => {
                let among = is_among(members.as_slice(), &self.me);
                send_stops(&self.me, &p.view, refused_cause(among, p.lost, number), out)
            }
            _ => {}
        }
    }

    /// Who isn't in the same part of both sets is a suspect.
    #[tactic(auto, unfolding(crate::specs::Decide::with_unlike))]
    pub fn suspect_unlike(&mut self, set: &View, other: &View)
        ensures { self.new ≡ with_unlike self.old set.now other.now }
    {
        let of_full = without(&set.full, other.full.as_slice());
        let of_starting = without(&set.starting, other.starting.as_slice());
        self.suspect_all(of_full.as_slice());
        self.suspect_all(of_starting.as_slice());
    }

    /// The node is ordered to stop.
    #[tactic(auto, unfolding(crate::specs::Decide::stop_row))]
    pub fn stop(&self, cause: StopCause, out: &mut Outs)
        requires { HasRoom out.old }
        ensures { IsTaken (stop_row self.now cause) self.now out.old out.new }
    {
        if let StopCause::NoGroup { group } = cause {
            out.mark(Mark::Down { group });
        }
        out.mark(Mark::Stopped { cause });
    }
}

// A view is settled on, and marked.
fn settle(alloc: Global, view: &View, out: &mut Outs) -> Result<Held<View>, NoMemory>
    requires { length out.old.marks < 16 }
    ensures settles { IfOk result (λ settled. settled ≡ view.now) }
    ensures ok { OnOk result (out.new ≡ and_mark out.old (Installed view.now)) }
    ensures err { OnErr result (out.new ≡ out.old) }
{
    let settled = Held::new(alloc, *view)?;
    let view = settled.share()?;
    out.mark(Mark::Installed { view });
    Ok(settled)
}

// Why a set stops that the arbitrator refused.
fn refused_cause(among: bool, lost: Option<u8>, number: u64) -> StopCause
    ensures { result ≡ refused_cause among lost number }
{
    match lost {
        Some(group) if among => StopCause::NoGroup { group },
        _ => StopCause::Excluded { view: number },
    }
}
