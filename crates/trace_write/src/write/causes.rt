//! How transactions and hosts end.
ghost use Rattle.std.specs.Prelude.{◌≡◌, ◌∷◌, ◌++◌, OnOk};
ghost use Rattle.trace_bytes.specs.Causes.{cause_bytes, stop_bytes, outcome_bytes};

use crate::output::Output;
use sig_core::{AbortCause, NoMemory, Outcome, StopCause};
use trace_bytes::kinds::{causes, outcomes, stops};

impl Output {
    /// Adds the cause of an abort.
    #[tactic(auto, unfolding(trace_bytes::specs::Causes::cause_bytes))]
    pub fn cause(&mut self, cause: &AbortCause) -> Result<(), NoMemory>
        ensures { OnOk result (self.new ≡ self.old ++ cause_bytes cause.now) }
    {
        match cause {
            AbortCause::Request => self.u8(causes::REQUEST),
            AbortCause::Timeout => self.u8(causes::TIMEOUT),
            AbortCause::NodeFail { view } => self.put_u64(causes::NODE_FAIL, *view),
            AbortCause::LogFull {
                used,
                reserved,
                need,
            } => self.put_three(causes::LOG_FULL, *used, *reserved, *need),
            AbortCause::TableFull { rows } => self.put_u64(causes::TABLE_FULL, *rows),
            AbortCause::Down => self.u8(causes::DOWN),
        }
    }

    /// Adds the cause of a stop.
    #[tactic(auto, unfolding(trace_bytes::specs::Causes::stop_bytes))]
    pub fn stop(&mut self, stop: &StopCause) -> Result<(), NoMemory>
        ensures { OnOk result (self.new ≡ self.old ++ stop_bytes stop.now) }
    {
        match stop {
            StopCause::Killed => self.u8(stops::KILLED),
            StopCause::Excluded { view } => self.put_u64(stops::EXCLUDED, *view),
            StopCause::NoGroup { group } => self.put_u8(stops::NO_GROUP, *group),
            StopCause::Disk { count } => self.put_u64(stops::DISK, *count),
            StopCause::Memory => self.u8(stops::MEMORY),
            StopCause::Clock => self.u8(stops::CLOCK),
            StopCause::Sibling { host } => self.put_host(stops::SIBLING, *host),
        }
    }

    /// Adds how a transaction ended.
    #[tactic(auto, unfolding(trace_bytes::specs::Causes::outcome_bytes))]
    pub fn outcome(&mut self, outcome: &Outcome) -> Result<(), NoMemory>
        ensures { OnOk result (self.new ≡ self.old ++ outcome_bytes outcome.now) }
    {
        match outcome {
            Outcome::Committed(u64) => self.put_u64(outcomes::COMMITTED, *u64),
            Outcome::Aborted(cause) => self.put_cause(outcomes::ABORTED, cause),
            Outcome::Unknown => self.u8(outcomes::UNKNOWN),
        }
    }
}
