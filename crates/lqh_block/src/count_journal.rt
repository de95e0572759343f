//! A journal that keeps no records.
ghost use Rattle.std.specs.Prelude.{◌≡◌, ◌<◌, ◌+◌, ◌^◌};
ghost use Rattle.lqh_block.specs.Counting.{CountState, journal_in, outlet_in};

use sig_core::{JOURNAL_BYTES, Journal, JournalFault, NoMemory, Piece, Redo};
use std::marker::Model;

/// A journal that counts the bytes of its records, and keeps none of them: it has none to give out.
#[derive(Drop)]
pub struct CountJournal {
    used: u64,
    reserved: u64,
    /// The position behind the last record.
    end: u64,
}

impl Model for CountJournal {
    ghost use Rattle.lqh_block.specs.Counting.{CountState, IsCount};

    ghost Value = { CountState };

    ghost view = { λ j. record { used = j.used; reserved = j.reserved; end = j.end } };

    ghost invariant = { λ j. IsCount j.used j.reserved j.end };
}

impl CountJournal {
    /// A journal that has used and keeps free no bytes. Takes no memory.
    pub fn new() -> CountJournal
        ensures { result ≡ record { used = 0; reserved = 0; end = 0 } }
    {
        CountJournal {
            used: 0,
            reserved: 0,
            end: 0,
        }
    }
}

impl Journal for CountJournal {
    ghost used_of = { journal_in };

    ghost outlet_of = { outlet_in };

    ghost has_room = { λ j need. j.end + j.reserved + need < 2 ^ 64 };

    fn make_room(&mut self, need: u64) -> Result<(), NoMemory> {
        if need > u64::MAX - self.end - self.reserved {
            return Err(NoMemory);
        }
        Ok(())
    }

    fn reserve(&mut self, need: u64) -> Result<(), JournalFault> {
        if self.used + self.reserved + need > JOURNAL_BYTES {
            return Err(JournalFault::LogFull {
                used: self.used,
                reserved: self.reserved,
                need,
            });
        }
        if need > u64::MAX - self.end - self.reserved {
            return Err(JournalFault::NoMemory);
        }
        self.reserved += need;
        Ok(())
    }

    fn append(&mut self, redo: &Redo) {
        let size = redo.size();
        self.reserved -= size;
        self.used += size;
        self.end += size;
    }

    fn unreserve(&mut self, bytes: u64) {
        self.reserved -= bytes;
    }

    fn flush_step(&mut self) -> Result<Option<Piece>, NoMemory> {
        Ok(None)
    }

    fn cut_to(&mut self, at: u64) {
        self.used = self.end - at;
    }

    fn end(&self) -> u64 {
        self.end
    }
}
