//! Proposals of views.
ghost use Rattle.std.specs.Prelude.{◌≡◌, ◌≤◌, IfOk, length};
ghost use Rattle.qmgr_block.specs.Propose.{awaited_at_first, greatest_number, has_number, next_number, number_for};
ghost use Rattle.qmgr_block.specs.Propose.{propose, proposal_sends, proposed_if, proposed_view, remaining_view};
ghost use Rattle.qmgr_block.specs.State.{sending_all};

use crate::known::{Known, Proposal};
use crate::sends::{one_signal, requests};
use crate::sets::{members_of, without};
use frag_map::lost_group;
use sig_core::{ARBITER, Body, Member, Members, MembershipSignal, NoMemory, Outgoing, View};
use std::alloc::Global;

// What goes out with a proposal: requests to the members, or the question about a set that isn't
// viable.
fn proposal_sends(alloc: Global, view: &View, lost: Option<u8>) -> Result<Vec<Outgoing>, NoMemory>
    ensures value { IfOk result (λ sends. sends.items ≡ proposal_sends view.now lost) }
    ensures few { IfOk result (λ sends. length sends.items ≤ 8) }
{
    let members = members_of(view);
    match lost {
        None => requests(alloc, &members, view),
        Some(_) => {
            let question = MembershipSignal::ArbitReq {
                number: 0,
                members,
                joining: None,
            };
            one_signal(
                alloc,
                Outgoing {
                    to: ARBITER,
                    body: Body::Membership(question),
                },
            )
        }
    }
}

// Who is to confirm a proposal.
fn awaited_at_first(view: &View, lost: Option<u8>) -> Members
    ensures { result ≡ awaited_at_first view.now lost }
{
    match lost {
        None => members_of(view),
        Some(_) => Members::new(),
    }
}

impl Known {
    // The greater of the numbers of the last promise and of all proposals.
    fn greatest_number(&self) -> u64
        ensures { result ≡ greatest_number self.now }
    {
        if self.promised.number < self.proposed {
            self.proposed
        } else {
            self.promised.number
        }
    }

    /// The number of a further proposal, if there is one.
    pub fn number_for_proposal(&self) -> Option<u64>
        ensures { result ≡ number_for self.now (has_number self.now) }
    {
        let greatest = self.greatest_number();
        if greatest < u64::MAX - 1 {
            Some(greatest + 1)
        } else {
            None
        }
    }

    /// Proposes a view, with the member that it joins, and gives what goes out.
    ///
    /// # Errors
    /// `NoMemory`.
    #[tactic(auto, unfolding(crate::specs::Propose::proposed_view))]
    pub fn propose_view(
        &mut self,
        alloc: Global,
        view: View,
        joining: Option<Member>,
    ) -> Result<Vec<Outgoing>, NoMemory>
        ensures value { IfOk result (λ sends. proposed_view self.old view joining ≡ sending_all self.new sends.items) }
        ensures few { IfOk result (λ sends. length sends.items ≤ 8) }
    {
        let lost = lost_group(&view, &self.layout.shape());
        let sends = proposal_sends(alloc, &view, lost)?;
        self.proposed = view.number;
        let awaited = awaited_at_first(&view, lost);
        self.outstanding = Some(Proposal {
            view,
            joining,
            lost,
            awaited,
        });
        Ok(sends)
    }

    /// Proposes the view without the suspects, if there is a number, and gives what goes out.
    ///
    /// # Errors
    /// `NoMemory`.
    #[tactic(auto, unfolding(crate::specs::Propose::propose))]
    pub fn propose(&mut self, alloc: Global) -> Result<Vec<Outgoing>, NoMemory>
        ensures value { IfOk result (λ sends. propose self.old ≡ sending_all self.new sends.items) }
        ensures few { IfOk result (λ sends. length sends.items ≤ 8) }
    {
        match self.number_for_proposal() {
            Some(number) => {
                let view = self.remaining_view(number);
                self.propose_view(alloc, view, None)
            }
            None => Ok(Vec::new(alloc)),
        }
    }

    // The members of the installed view without the suspects.
    fn remaining_view(&self, number: u64) -> View
        ensures { result ≡ record (remaining_view self.now) { number = number } }
    {
        let view = self.layout.view();
        let suspects = self.suspects.as_slice();
        View {
            number,
            full: without(&view.full, suspects),
            starting: without(&view.starting, suspects),
        }
    }
}
