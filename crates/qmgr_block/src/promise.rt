//! Promises: a node promises one set for each number, and its fences are up before it says so.
ghost use Rattle.std.specs.Prelude.{◌≡◌, ◌≤◌, ◌<◌, ◌++◌, IfOk, IfSome, OnOk, length, position, [], ◌∷◌};
ghost use Rattle.qmgr_block.specs.Promise.{fence_of, fences, is_fenced, is_ldm, less, may_promise, promising};
ghost use Rattle.qmgr_block.specs.Promise.{refusal_of, waiting_promise, waits_for, with_absent};

use crate::known::Known;
use crate::sends::one_signal;
use crate::sets::{is_part, is_special, members_of, without};
use sig_core::{
    Body, Held, HostId, MembershipSignal, NoMemory, Outgoing, Place, View, coordinator, epochs,
    membership, rows_of,
};
use std::alloc::Global;

/// A promise that waits until the blocks of its node have raised their fences.
#[derive(Clone, Copy)]
pub struct Promise {
    pub number: u64,
    /// The node that asked for it.
    pub to: u8,
    /// How many of the two blocks of the part tc haven't confirmed.
    pub tc: u8,
    /// How many of the one block of the part ldm haven't.
    pub ldm: u8,
}

impl Promise {
    /// A promise of a set for a node.
    pub fn new(set: &View, to: u8) -> Promise
        ensures { result ≡ waiting_promise set.now to }
    {
        Promise {
            number: set.number,
            to,
            tc: 2,
            ldm: 1,
        }
    }

    /// Whether it waits for a block of the part ldm, or else of the part tc.
    pub fn waits_for(&self, ldm: bool) -> bool
        ensures { result ≡ waits_for ldm self.now }
    {
        if ldm { self.ldm > 0 } else { self.tc > 0 }
    }

    /// The promise when one block more of that part has confirmed.
    pub fn less(&self, ldm: bool) -> Promise
        ensures { result ≡ less ldm self.now }
    {
        if ldm {
            Promise {
                ldm: self.ldm.saturating_sub(1),
                ..*self
            }
        } else {
            Promise {
                tc: self.tc.saturating_sub(1),
                ..*self
            }
        }
    }

    /// Whether all blocks have confirmed.
    pub fn is_fenced(&self) -> bool
        ensures { result ≡ is_fenced self.now }
    {
        self.tc == 0 && self.ldm == 0
    }
}

/// Whether the host has the part ldm of its node: hosts stand in threes, main, tc and ldm, from 1
/// on.
pub fn is_ldm(host: HostId) -> bool
    ensures { result ≡ is_ldm host.0 }
{
    host.0 % 3 == 0
}

/// The blocks of a node are told to raise their fences.
///
/// # Errors
/// `NoMemory`.
pub fn fences(alloc: Global, node: u8, set: &Held<View>) -> Result<Vec<Outgoing>, NoMemory>
    ensures value { IfOk result (λ sends. sends.items ≡ fences node set.now) }
    ensures few { IfOk result (λ sends. length sends.items ≤ 3) }
{
    let mut sends = Vec::new(alloc);
    add_fence(coordinator(node), set, &mut sends)?;
    add_fence(epochs(node), set, &mut sends)?;
    add_fence(rows_of(node), set, &mut sends)?;
    Ok(sends)
}

// A block is told to raise its fence, behind what is sent so far.
fn add_fence(to: Place, set: &Held<View>, sends: &mut Vec<Outgoing>) -> Result<(), NoMemory>
    ensures { OnOk result (sends.new.items ≡ sends.old.items ++ fence_of to set.now ∷ []) }
{
    let proposal = set.share()?;
    let body = Body::Membership(MembershipSignal::FenceReq { proposal });
    sends.push(Outgoing { to, body })?;
    Ok(())
}

/// Where the first promise stands that waits for a block of that part.
pub fn first_waiting(promises: &[Promise], ldm: bool) -> Option<usize>
    ensures value { result ≡ position (waits_for ldm) promises.now }
    ensures inside { IfSome result (λ at. at < length promises.now) }
{
    promises.iter().position(|promise| promise.waits_for(ldm))
}

impl Known {
    /// Whether a set may be promised.
    #[tactic(auto, unfolding(crate::specs::Promise::may_promise))]
    pub fn may_promise(&self, set: &View) -> bool
        ensures { result ≡ may_promise self.now set.now }
    {
        let view = self.layout.view();
        self.promised.number < set.number
            && (is_part(&self.promised, set)
                || is_special(view, set) && self.promised.number == view.number)
    }

    /// Who is missing from a set is a suspect, unless the set is a join or a promotion.
    #[tactic(auto, unfolding(crate::specs::Promise::with_absent))]
    pub fn suspect_absent(&mut self, set: &View)
        ensures { self.new ≡ with_absent self.old set.now }
    {
        if !is_special(self.layout.view(), set) {
            let present = members_of(set);
            let of_view = without(&members_of(self.layout.view()), present.as_slice());
            let of_promise = without(&members_of(&self.promised), present.as_slice());
            self.suspect_all(of_view.as_slice());
            self.suspect_all(of_promise.as_slice());
        }
    }

    /// The set is the last promise.
    #[tactic(auto, unfolding(crate::specs::Promise::promising))]
    pub fn promise(&mut self, set: &View)
        ensures { self.new ≡ promising self.old set.now }
    {
        self.promised = *set;
        let members = members_of(set);
        self.seen.note_all(members.as_slice());
        self.suspect_closed();
    }

    /// The refusal of a promise to a node.
    ///
    /// # Errors
    /// `NoMemory`.
    pub fn refuse(&self, alloc: Global, to: u8) -> Result<Vec<Outgoing>, NoMemory>
        ensures { IfOk result (λ sends. sends.items ≡ refusal_of self.now to ∷ []) }
    {
        let promised = Held::new(alloc, self.promised)?;
        let body = Body::Membership(MembershipSignal::PrepFailRef { promised });
        one_signal(
            alloc,
            Outgoing {
                to: membership(to),
                body,
            },
        )
    }
}
