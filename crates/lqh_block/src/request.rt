//! What waits at a node's rows, and what is marked there.
ghost use Rattle.std.specs.Prelude.{◌≡◌, IfOk};

use sig_core::{Chain, HeldWork, Key, NoMemory, TxId};

/// A request of a transaction to prepare something.
#[derive(Drop)]
pub struct Request {
    pub tx: TxId,
    pub work: HeldWork,
    /// The replicas of the row, the primary first.
    pub chain: Chain,
    /// The place in the chain, from 0, of this replica.
    pub at: u8,
}

impl Request {
    /// The same request once more.
    ///
    /// # Errors
    /// `NoMemory` where what it holds is held 2^63 - 1 times.
    pub fn share(&self) -> Result<Request, NoMemory>
        ensures { IfOk result (λ request. request ≡ self.now) }
    {
        let work = self.work.share()?;
        Ok(Request {
            tx: self.tx,
            work,
            chain: self.chain.share(),
            at: self.at,
        })
    }
}

/// A commit of a row that the client hasn't acknowledged.
#[derive(Clone, Copy)]
pub struct Marker {
    pub tx: TxId,
    pub key: Key,
    /// The epoch of the commit.
    pub epoch: u64,
}
