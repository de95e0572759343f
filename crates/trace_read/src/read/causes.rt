//! How transactions and hosts end.
ghost use Rattle.trace_read.specs.Reading.{Gives};
ghost use Rattle.trace_bytes.specs.Causes.{cause_at, cause_of, outcome_at, outcome_of, stop_at, stop_of, stop_of_1};
ghost use Rattle.trace_bytes.specs.Causes.{stop_of_2};

use crate::input::Input;
use sig_core::{AbortCause, Outcome, StopCause};
use trace_bytes::kinds::{causes, outcomes, stops};

impl Input<'_> {
    /// The cause of an abort.
    #[tactic(auto, unfolding(trace_bytes::specs::Causes::cause_at))]
    pub fn cause(&mut self) -> Result<AbortCause, usize>
        ensures { Gives result self.new (cause_at self.old) }
    {
        let number = self.byte(0, 5)?;
        self.cause_of(number)
    }

    #[tactic(auto, unfolding(trace_bytes::specs::Causes::cause_of))]
    fn cause_of(&mut self, number: u8) -> Result<AbortCause, usize>
        ensures { Gives result self.new (cause_of number self.old) }
    {
        match number {
            causes::REQUEST => Ok(AbortCause::Request),
            causes::TIMEOUT => Ok(AbortCause::Timeout),
            causes::NODE_FAIL => {
                let view = self.u64()?;
                Ok(AbortCause::NodeFail { view })
            }
            causes::LOG_FULL => {
                let used = self.u64()?;
                let reserved = self.u64()?;
                let need = self.u64()?;
                Ok(AbortCause::LogFull {
                    used,
                    reserved,
                    need,
                })
            }
            causes::TABLE_FULL => {
                let rows = self.u64()?;
                Ok(AbortCause::TableFull { rows })
            }
            _ => Ok(AbortCause::Down),
        }
    }

    /// The cause of a stop.
    #[tactic(auto, unfolding(trace_bytes::specs::Causes::stop_at))]
    pub fn stop(&mut self) -> Result<StopCause, usize>
        ensures { Gives result self.new (stop_at self.old) }
    {
        let number = self.byte(0, 6)?;
        self.stop_of(number)
    }

    fn stop_of(&mut self, number: u8) -> Result<StopCause, usize>
        ensures { Gives result self.new (stop_of number self.old) }
    {
        if number < 6 {
            self.stop_of_1(number)
        } else {
            self.stop_of_2(number)
        }
    }

    #[tactic(auto, unfolding(trace_bytes::specs::Causes::stop_of_1))]
    fn stop_of_1(&mut self, number: u8) -> Result<StopCause, usize>
        ensures { Gives result self.new (stop_of_1 number self.old) }
    {
        match number {
            stops::KILLED => Ok(StopCause::Killed),
            stops::EXCLUDED => {
                let view = self.u64()?;
                Ok(StopCause::Excluded { view })
            }
            stops::NO_GROUP => {
                let group = self.u8()?;
                Ok(StopCause::NoGroup { group })
            }
            stops::DISK => {
                let count = self.u64()?;
                Ok(StopCause::Disk { count })
            }
            stops::MEMORY => Ok(StopCause::Memory),
            _ => Ok(StopCause::Clock),
        }
    }

    #[tactic(auto, unfolding(trace_bytes::specs::Causes::stop_of_2))]
    fn stop_of_2(&mut self, number: u8) -> Result<StopCause, usize>
        ensures { Gives result self.new (stop_of_2 number self.old) }
    {
        match number {
            _ => {
                let host = self.host()?;
                Ok(StopCause::Sibling { host })
            }
        }
    }

    /// How a transaction ended.
    #[tactic(auto, unfolding(trace_bytes::specs::Causes::outcome_at))]
    pub fn outcome(&mut self) -> Result<Outcome, usize>
        ensures { Gives result self.new (outcome_at self.old) }
    {
        let number = self.byte(0, 2)?;
        self.outcome_of(number)
    }

    #[tactic(auto, unfolding(trace_bytes::specs::Causes::outcome_of))]
    fn outcome_of(&mut self, number: u8) -> Result<Outcome, usize>
        ensures { Gives result self.new (outcome_of number self.old) }
    {
        match number {
            outcomes::COMMITTED => {
                let u64 = self.u64()?;
                Ok(Outcome::Committed(u64))
            }
            outcomes::ABORTED => {
                let cause = self.cause()?;
                Ok(Outcome::Aborted(cause))
            }
            _ => Ok(Outcome::Unknown),
        }
    }
}
