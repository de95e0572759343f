//! Work that a block goes on with.
ghost use Rattle.std.specs.Prelude.{◌≡◌, ◌∷◌, ◌++◌, OnOk};
ghost use Rattle.trace_bytes.specs.Works.{work_bytes};

use crate::output::Output;
use sig_core::{NoMemory, Work};
use trace_bytes::kinds::works;

impl Output {
    /// Adds work that a block goes on with.
    #[tactic(auto, unfolding(trace_bytes::specs::Works::work_bytes))]
    pub fn work(&mut self, work: &Work) -> Result<(), NoMemory>
        ensures { OnOk result (self.new ≡ self.old ++ work_bytes work.now) }
    {
        match work {
            Work::Request(request) => self.put_request(works::REQUEST, request),
            Work::Transaction(tx) => self.put_tx(works::TRANSACTION, *tx),
            Work::Installation => self.u8(works::INSTALLATION),
            Work::Held => self.u8(works::HELD),
            Work::Granted => self.u8(works::GRANTED),
            Work::Expired => self.u8(works::EXPIRED),
            Work::Report => self.u8(works::REPORT),
            Work::Members => self.u8(works::MEMBERS),
            Work::Flush => self.u8(works::FLUSH),
            Work::Walk => self.u8(works::WALK),
            Work::Changes(u64) => self.put_u64(works::CHANGES, *u64),
        }
    }
}
