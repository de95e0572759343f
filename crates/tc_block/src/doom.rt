//! Whom the promise of a view dooms.
ghost use Rattle.std.specs.Prelude.{◌≡◌};
ghost use Rattle.std.specs.List.{list_any};
ghost use Rattle.tc_block.specs.Doom.{is_among, is_doomed_by, is_outside, is_undecided, strays};
ghost use Rattle.frag_map.specs.Replicas.{is_member};
ghost use Rattle.sig_core.specs.Same.{same_tx};

use crate::phase::Phase;
use crate::touched::Touched;
use crate::transaction::Transaction;
use sig_core::{Member, Members, TxId, View};

impl Transaction {
    /// Whether the promise of this view dooms it.
    #[tactic(auto, unfolding(crate::specs::Doom::is_doomed_by))]
    pub fn is_doomed_by(&self, view: &View) -> bool
        ensures { result ≡ is_doomed_by view.now self.now }
    {
        is_undecided(self.phase)
            && (self.asked.is_some() || some_stray(view, self.touched.as_slice()))
    }
}

// Whether it is neither decided nor aborted.
fn is_undecided(phase: Phase) -> bool
    ensures { result ≡ is_undecided phase }
{
    match phase {
        Phase::Open | Phase::Verifying => true,
        _ => false,
    }
}

// Whether the view does without a replica of one of the keys.
fn some_stray(view: &View, touched: &[Touched]) -> bool
    ensures { result ≡ list_any (strays view.now) touched.now }
{
    touched.iter().any(|t| strays(view, t))
}

fn strays(view: &View, t: &Touched) -> bool
    ensures { result ≡ strays view.now t.now }
{
    t.chain
        .as_slice()
        .iter()
        .any(|member| is_outside(view, member))
}

// Whether the view does without this start of a node.
fn is_outside(view: &View, member: &Member) -> bool
    ensures { result ≡ is_outside view.now member.now }
{
    !(has(&view.full, member) || has(&view.starting, member))
}

fn has(members: &Members, member: &Member) -> bool
    ensures { result ≡ list_any (is_member member.now) members.now }
{
    members
        .as_slice()
        .iter()
        .any(|other| is_same(member, other))
}

fn is_same(one: &Member, other: &Member) -> bool
    ensures { result ≡ is_member one.now other.now }
{
    one.node == other.node && one.start == other.start
}

/// Whether the transaction is among these.
pub fn is_among(txs: &[TxId], tx: &TxId) -> bool
    ensures { result ≡ is_among txs.now tx.now }
{
    txs.iter().any(|other| same_tx(tx, other))
}

fn same_tx(one: &TxId, other: &TxId) -> bool
    ensures { result ≡ same_tx one.now other.now }
{
    *one == *other
}
