//! Blocks, and what replicas have of transactions.
ghost use Rattle.std.specs.Prelude.{◌≡◌, ◌∷◌, ◌++◌, OnOk};
ghost use Rattle.trace_bytes.specs.Places.{state_bytes, block_bytes};

use crate::output::Output;
use sig_core::{BlockId, NoMemory, RecordState};
use trace_bytes::kinds::{blocks, states};

impl Output {
    /// Adds what a replica has of a transaction.
    #[tactic(auto, unfolding(trace_bytes::specs::Places::state_bytes))]
    pub fn state(&mut self, state: RecordState) -> Result<(), NoMemory>
        ensures { OnOk result (self.new ≡ self.old ++ state_bytes state) }
    {
        match state {
            RecordState::Prepared => self.u8(states::PREPARED),
            RecordState::Committed => self.u8(states::COMMITTED),
            RecordState::Marker => self.u8(states::MARKER),
        }
    }

    /// Adds a block.
    #[tactic(auto, unfolding(trace_bytes::specs::Places::block_bytes))]
    pub fn block(&mut self, block: BlockId) -> Result<(), NoMemory>
        ensures { OnOk result (self.new ≡ self.old ++ block_bytes block) }
    {
        match block {
            BlockId::Api => self.u8(blocks::API),
            BlockId::Arbiter => self.u8(blocks::ARBITER),
            BlockId::Qmgr => self.u8(blocks::QMGR),
            BlockId::Tc => self.u8(blocks::TC),
            BlockId::Takeover => self.u8(blocks::TAKEOVER),
            BlockId::Dih => self.u8(blocks::DIH),
            BlockId::GcpMaster => self.u8(blocks::GCP_MASTER),
            BlockId::Lqh => self.u8(blocks::LQH),
            BlockId::Copy => self.u8(blocks::COPY),
            BlockId::Files => self.u8(blocks::FILES),
            BlockId::Suma => self.u8(blocks::SUMA),
            BlockId::Backup => self.u8(blocks::BACKUP),
        }
    }
}
