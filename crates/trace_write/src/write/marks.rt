//! Marks.
ghost use Rattle.std.specs.Prelude.{◌≡◌, ◌∷◌, ◌++◌, OnOk};
ghost use Rattle.trace_bytes.specs.Marks.{mark_bytes};

use crate::output::Output;
use sig_core::{Mark, NoMemory};
use trace_bytes::kinds::marks;

impl Output {
    /// Adds a mark.
    #[tactic(auto, unfolding(trace_bytes::specs::Marks::mark_bytes))]
    pub fn mark(&mut self, mark: &Mark) -> Result<(), NoMemory>
        ensures { OnOk result (self.new ≡ self.old ++ mark_bytes mark.now) }
    {
        match mark {
            Mark::Prepared { tx, key } => self.put_tx_key(marks::PREPARED, *tx, key),
            Mark::Decided { tx, epoch } => self.put_tx_u64(marks::DECIDED, *tx, *epoch),
            Mark::Applied { tx, key } => self.put_tx_key(marks::APPLIED, *tx, key),
            Mark::Done { tx, key } => self.put_tx_key(marks::DONE, *tx, key),
            Mark::Expired { tx, key } => self.put_tx_key(marks::EXPIRED, *tx, key),
            Mark::Promised { number } => self.put_u64(marks::PROMISED, *number),
            Mark::Installed { view } => self.put_view(marks::INSTALLED, view.get()),
            Mark::Reported { tx, outcome } => self.put_tx_outcome(marks::REPORTED, *tx, outcome),
            Mark::Durable { epoch } => self.put_u64(marks::DURABLE, *epoch),
            Mark::CutOff { host } => self.put_host(marks::CUT_OFF, *host),
            Mark::Down { group } => self.put_u8(marks::DOWN, *group),
            Mark::Stopped { cause } => self.put_stop(marks::STOPPED, cause),
            Mark::Closed { epoch } => self.put_u64(marks::CLOSED, *epoch),
        }
    }
}
