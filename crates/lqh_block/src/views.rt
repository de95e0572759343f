//! The rows of a node under views.
ghost use Rattle.std.specs.Prelude.{◌≡◌};
ghost use Rattle.lqh_block.specs.Views.{entered, goes_on_holding, is_coordinated, was_begun_by};

use crate::lqh::Lqh;
use crate::request::Marker;
use row_locks::Keeper;
use sig_core::{Journal, Key, Member, Rows, TxId, View};

/// Whether the coordinator of the transaction, its node and start, is that of one of these members.
pub fn is_coordinated(members: &[Member], tx: TxId) -> bool
    ensures { result ≡ is_coordinated members.now tx }
{
    members.iter().any(|member| was_begun_by(tx, member))
}

// Whether the transaction was begun by the coordinator of this member.
fn was_begun_by(tx: TxId, member: &Member) -> bool
    ensures { result ≡ was_begun_by tx member.now }
{
    member.node == tx.tc && member.start == tx.start
}

// Who goes on holding locks over these rows, where these are the full members.
#[derive(Drop)]
struct Claims<'a, R: Rows> {
    rows: &'a R,
    full: &'a [Member],
}

impl<'a, R: Rows> Keeper for Claims<'a, R> {
    ghost keeps = { λ c key tx. goes_on_holding (R.state_of c.rows.now) c.full.now key tx };

    fn keeps(&self, key: &Key, tx: TxId) -> bool {
        self.rows.record_state(tx, key).is_some() || is_coordinated(self.full, tx)
    }
}

impl<R: Rows, J: Journal> Lqh<R, J> {
    /// The node.
    pub fn node(&self) -> u8
        ensures { result ≡ self.now.node }
    {
        self.node
    }

    /// The view in force.
    pub fn view(&self) -> &View
        ensures { result.now ≡ self.now.layout.view }
    {
        self.layout.view()
    }

    /// The markers of commits that clients haven't acknowledged, the oldest first.
    pub fn markers(&self) -> &[Marker]
        ensures { result.now ≡ self.now.markers }
    {
        &self.markers
    }

    /// Installs a view as a node whose coordinators may be out of it: nobody waits any more, and
    /// each transaction lets go of the locks of keys on which it has no record, unless its
    /// coordinator is a full member of the view. Takes no memory.
    pub fn enter(&mut self, view: &View)
        ensures { self.new ≡ entered self.old view.now }
    {
        self.waiting.clear();
        let storage = &self.storage;
        let claims = Claims {
            rows: &storage.rows,
            full: view.full.as_slice(),
        };
        self.locks.keep(&claims);
        self.layout.install(view);
    }
}
