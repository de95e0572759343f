//! What a journal of redo records is.
ghost use Rattle.std.specs.Prelude.{◌≡◌, ◌≢◌, ◌≤◌, ◌<◌, ◌+◌, ◌^◌, ℕ, Err, IfOk, OnErr, OnOk};
ghost use Rattle.sig_core.specs.declared.journal.JournalFault.TheVariants as fault;
ghost use Rattle.sig_core.specs.Journal.{GivesOut, JournalState, OutletState, Reserves, appending, behind, end_of};
ghost use Rattle.sig_core.specs.Journal.{unreserving, used_from};
ghost use Rattle.sig_core.specs.Redo.{size_of};

use crate::no_memory::NoMemory;
use crate::piece::Piece;
use crate::redo::Redo;

/// How many bytes a journal has, 16 MiB.
pub const JOURNAL_BYTES: u64 = 16_777_216;

/// Why a journal keeps no bytes free.
#[derive(Clone, Copy, Debug, PartialEq, Eq)]
pub enum JournalFault {
    /// It has 16,777,216 bytes; so many are used, so many reserved, and so many were asked for.
    LogFull { used: u64, reserved: u64, need: u64 },
    NoMemory,
}

/// A journal of redo records, whose bytes are given out in pieces for a ring of files. Contracts see how
/// many bytes it has used and how many it keeps free for records to come, both 0 at first; and which
/// bytes it has still to give out.
pub trait Journal {
    /// What the journal is seen as.
    ghost used_of: { Self → JournalState };

    /// What it has to give out.
    ghost outlet_of: { Self → OutletState };

    /// It has the memory to keep this many bytes more free.
    ghost has_room: { Self → ℕ → Type 0 };

    /// Makes the memory for so many bytes more, so that the next `reserve` of as many wants none.
    ///
    /// # Errors
    /// `NoMemory`, also where positions would exceed 2^64; and then the journal is as it was.
    fn make_room(&mut self, need: u64) -> Result<(), NoMemory>
        ensures ok { OnOk result (has_room self.new need) }
        ensures same { used_of self.new ≡ used_of self.old }
        ensures outlet { outlet_of self.new ≡ outlet_of self.old };

    /// Keeps so many bytes more free.
    ///
    /// # Errors
    /// `LogFull` exactly where what is used, reserved and needed exceeds 16,777,216; `NoMemory`
    /// where no room was made. Then the journal is as it was.
    fn reserve(&mut self, need: u64) -> Result<(), JournalFault>
        requires { need < 2 ^ 32 }
        ensures answer { Reserves (used_of self.old) need (used_of self.new) result }
        ensures room { has_room self.old need → result ≢ Err fault.NoMemory }
        ensures outlet { outlet_of self.new ≡ outlet_of self.old };

    /// Appends a record, in bytes that were kept free. Takes no memory.
    fn append(&mut self, redo: &Redo)
        requires { size_of redo.now ≤ (used_of self.old).reserved }
        ensures used { used_of self.new ≡ appending (used_of self.old) (size_of redo.now) }
        ensures outlet { outlet_of self.new ≡ behind (outlet_of self.old) redo.now };

    /// Keeps so many bytes fewer free.
    fn unreserve(&mut self, bytes: u64)
        requires { bytes ≤ (used_of self.old).reserved }
        ensures used { used_of self.new ≡ unreserving (used_of self.old) bytes }
        ensures outlet { outlet_of self.new ≡ outlet_of self.old };

    /// The next bytes to write, at their place: at most 32,768, and never across the end of a file.
    /// None exactly where all bytes are given out.
    ///
    /// # Errors
    /// `NoMemory`, and then the journal is as it was.
    fn flush_step(&mut self) -> Result<Option<Piece>, NoMemory>
        ensures piece { IfOk result (λ given. GivesOut (outlet_of self.old) given (outlet_of self.new)) }
        ensures err { OnErr result (outlet_of self.new ≡ outlet_of self.old) }
        ensures used { used_of self.new ≡ used_of self.old };

    /// What is used counts from this position on, up to which all bytes were given out: what stood
    /// before it is given up. Takes no memory.
    fn cut_to(&mut self, at: u64)
        requires least { end_of (outlet_of self.old) ≤ at + (used_of self.old).used }
        requires most { at ≤ (outlet_of self.old).flushed }
        ensures used { used_of self.new ≡ used_from (used_of self.old) (outlet_of self.old) at }
        ensures outlet { outlet_of self.new ≡ outlet_of self.old };

    /// The position behind the last record, counted in bytes from 0.
    fn end(&self) -> u64
        ensures { result ≡ end_of (outlet_of self.now) };
}
