//! What transactions wait for, and markers of commits.
ghost use Rattle.std.specs.Prelude.{◌≡◌, filter};
ghost use Rattle.sig_core.specs.Step.{HasRoom, IsTaken};
ghost use Rattle.lqh_block.specs.Wait.{acknowledged, is_other, wait_row};

use crate::lqh::Lqh;
use crate::request::Marker;
use crate::work::same_tx;
use sig_core::{Body, ClientSignal, Journal, Key, Outs, Rows, TxId, coordinator_of};

impl<R: Rows, J: Journal> Lqh<R, J> {
    /// Tells the transaction's coordinator who holds the lock that it waits for, if it does.
    #[tactic(auto, unfolding(crate::specs::Wait::wait_row))]
    pub fn tell_wait(&self, tx: TxId, key: &Key, out: &mut Outs)
        requires { HasRoom out.old }
        ensures { IsTaken (wait_row self.now tx key.now) self.now out.old out.new }
    {
        if let Some(ahead) = self.locks.ahead(tx, key) {
            let body = ClientSignal::LqhWaitConf { tx, ahead };
            out.send(coordinator_of(tx), Body::Client(body));
        }
    }

    /// The client has heard of the transaction's commit: its markers go.
    #[tactic(auto, unfolding(crate::specs::Wait::acknowledged))]
    pub fn acknowledge(&mut self, tx: TxId)
        ensures { self.new ≡ acknowledged self.old tx }
    {
        forget(&mut self.markers, tx);
    }
}

// Removes the transaction's markers.
fn forget(markers: &mut Vec<Marker>, tx: TxId)
    ensures { markers.new.items ≡ filter (is_other tx) markers.old.items }
{
    markers.retain(|marker| is_other(tx, marker));
}

// Whether the marker isn't the transaction's.
fn is_other(tx: TxId, marker: &Marker) -> bool
    ensures { result ≡ is_other tx marker.now }
{
    !same_tx(marker.tx, tx)
}
