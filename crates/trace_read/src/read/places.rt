//! Blocks, and what replicas have of transactions.
ghost use Rattle.trace_read.specs.Reading.{Gives};
ghost use Rattle.trace_bytes.specs.Places.{block_at, block_of, block_of_1, block_of_2, state_at, state_of};

use crate::input::Input;
use sig_core::{BlockId, RecordState};
use trace_bytes::kinds::{blocks, states};

impl Input<'_> {
    /// What a replica has of a transaction.
    #[tactic(auto, unfolding(trace_bytes::specs::Places::state_at))]
    pub fn state(&mut self) -> Result<RecordState, usize>
        ensures { Gives result self.new (state_at self.old) }
    {
        let number = self.byte(0, 2)?;
        self.state_of(number)
    }

    #[tactic(auto, unfolding(trace_bytes::specs::Places::state_of))]
    fn state_of(&mut self, number: u8) -> Result<RecordState, usize>
        ensures { Gives result self.new (state_of number self.old) }
    {
        match number {
            states::PREPARED => Ok(RecordState::Prepared),
            states::COMMITTED => Ok(RecordState::Committed),
            _ => Ok(RecordState::Marker),
        }
    }

    /// A block.
    #[tactic(auto, unfolding(trace_bytes::specs::Places::block_at))]
    pub fn block(&mut self) -> Result<BlockId, usize>
        ensures { Gives result self.new (block_at self.old) }
    {
        let number = self.byte(0, 11)?;
        self.block_of(number)
    }

    fn block_of(&mut self, number: u8) -> Result<BlockId, usize>
        ensures { Gives result self.new (block_of number self.old) }
    {
        if number < 6 {
            self.block_of_1(number)
        } else {
            self.block_of_2(number)
        }
    }

    #[tactic(auto, unfolding(trace_bytes::specs::Places::block_of_1))]
    fn block_of_1(&mut self, number: u8) -> Result<BlockId, usize>
        ensures { Gives result self.new (block_of_1 number self.old) }
    {
        match number {
            blocks::API => Ok(BlockId::Api),
            blocks::ARBITER => Ok(BlockId::Arbiter),
            blocks::QMGR => Ok(BlockId::Qmgr),
            blocks::TC => Ok(BlockId::Tc),
            blocks::TAKEOVER => Ok(BlockId::Takeover),
            _ => Ok(BlockId::Dih),
        }
    }

    #[tactic(auto, unfolding(trace_bytes::specs::Places::block_of_2))]
    fn block_of_2(&mut self, number: u8) -> Result<BlockId, usize>
        ensures { Gives result self.new (block_of_2 number self.old) }
    {
        match number {
            blocks::GCP_MASTER => Ok(BlockId::GcpMaster),
            blocks::LQH => Ok(BlockId::Lqh),
            blocks::COPY => Ok(BlockId::Copy),
            blocks::FILES => Ok(BlockId::Files),
            blocks::SUMA => Ok(BlockId::Suma),
            _ => Ok(BlockId::Backup),
        }
    }
}
