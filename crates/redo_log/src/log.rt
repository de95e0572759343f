//! The log of redo records.
ghost use Rattle.std.specs.Prelude.{◌≡◌, ◌≢◌, ◌≤◌, ◌<◌, ◌+◌, ◌-◌, ◌^◌, Ok, Err, IfOk, IsOk, OnOk, OnErr};
ghost use Rattle.sig_core.specs.declared.journal.JournalFault.TheVariants as fault;
ghost use Rattle.sig_core.specs.Journal.{GivesOut as GivesBytes, Reserves, appending, behind, unreserving, used_from};
ghost use Rattle.sig_core.specs.Redo.{size_of};
ghost use Rattle.redo_log.specs.LogState.{GivesOut, LogView, appended, bytes_from, cut_to, end_of, fresh_log, journal_of, next_len};
ghost use Rattle.redo_log.specs.LogState.{outlet_in, rest_from, with_reserved};

use redo_format::encode;
use sig_core::{
    JOURNAL_BYTES, Journal, JournalFault, LOG_FILE_BYTES, NoMemory, PIECE_BYTES, Piece, Redo, Seq,
    file_of, place_of,
};
use std::alloc::Global;
use std::marker::Model;

/// The log of a data node in one generation: records, one behind the other, whose bytes are given
/// out in pieces. Position p lies at place p mod 4,194,304 of file (p / 4,194,304) mod 4 of the four
/// files of its parity. Contracts see the bytes that are still to be given out, and the positions.
#[derive(Drop)]
pub struct Log {
    alloc: Global,
    generation: u64,
    parity: u8,
    /// The position that what is used counts from.
    start: u64,
    /// The position up to which all bytes were given out.
    flushed: u64,
    /// The bytes of records, of which the first `given` were given out. They are let go together
    /// when none is left, so that no piece moves the others.
    bytes: Vec<u8>,
    given: usize,
    reserved: u64,
}

impl Model for Log {
    ghost use Rattle.std.specs.Prelude.{◌+◌, ◌-◌, drop, length};
    ghost use Rattle.std.specs.Vec.{vec_capacity};
    ghost use Rattle.redo_log.specs.LogState.{IsLog, LogView, room_of};

    ghost Value = { LogView };

    ghost view = { λ s. record { log = record { generation = s.generation; parity = s.parity; start = s.start; flushed = s.flushed; left = drop s.given s.bytes.items; reserved = s.reserved }; room = room_of (vec_capacity s.bytes) (length s.bytes.items) (s.flushed + (length s.bytes.items - s.given)) s.reserved } };

    ghost invariant = { λ s. IsLog s.parity s.start s.flushed s.given (length s.bytes.items) (vec_capacity s.bytes) s.reserved };
}

impl Log {
    /// A log without records, of this generation, in the files of this parity, 0 or 1. Takes no
    /// memory.
    pub fn new(alloc: Global, generation: u64, parity: u8) -> Result<Log, NoMemory>
        requires { parity ≤ 1 }
        ensures { (log : LogView) × (result ≡ Ok log) × (log.log ≡ fresh_log generation parity) }
    {
        Ok(Log {
            alloc,
            generation,
            parity,
            start: 0,
            flushed: 0,
            bytes: Vec::new(alloc),
            given: 0,
            reserved: 0,
        })
    }

    /// The generation that it is of.
    pub fn generation(&self) -> u64
        ensures { result ≡ self.now.log.generation }
    {
        self.generation
    }

    /// The parity of its files, 0 or 1.
    pub fn parity(&self) -> u8
        ensures value { result ≡ self.now.log.parity }
        ensures most { result ≤ 1 }
    {
        self.parity
    }

    /// The bytes that are used: those behind the position of the last cut, at first 0.
    pub fn used(&self) -> u64
        ensures { result ≡ (journal_of self.now.log).used }
    {
        self.end() - self.start
    }

    /// The position up to which all bytes were given out, or given up.
    pub fn flushed(&self) -> u64
        ensures { result ≡ self.now.log.flushed }
    {
        self.flushed
    }

    /// The bytes from a position on; none where they aren't kept any more, or not there yet.
    #[tactic(auto, unfolding(crate::specs::LogState::bytes_from))]
    pub fn bytes_from(&self, at: u64) -> &[u8]
        ensures { result.now ≡ bytes_from self.now.log at }
    {
        if at < self.flushed || at > self.end() {
            return &[];
        }
        let from = self.given + (at - self.flushed) as usize;
        &self.bytes[from..]
    }

    /// A log of what this one has from a position on: what stood before it is given up, and with it the
    /// memory that it took.
    ///
    /// # Errors
    /// `NoMemory`.
    #[tactic(auto, unfolding(crate::specs::LogState::bytes_from))]
    pub fn rest_from(&self, at: u64) -> Result<Log, NoMemory>
        requires least { self.now.log.flushed ≤ at }
        requires most { at ≤ end_of self.now.log }
        ensures log { IfOk result (λ log. log.log ≡ rest_from self.now.log at) }
        ensures used { IfOk result (λ log. journal_of log.log ≡ used_from (journal_of self.now.log) (outlet_in self.now.log) at) }
    {
        let rest = self.bytes_from(at);
        let mut bytes = Vec::with_capacity(self.alloc, rest.len() + self.reserved as usize)?;
        bytes.extend_from_slice(rest)?;
        Ok(Log {
            alloc: self.alloc,
            generation: self.generation,
            parity: self.parity,
            start: at,
            flushed: at,
            bytes,
            given: 0,
            reserved: self.reserved,
        })
    }

    // How many bytes the next piece has.
    fn next_len(&self) -> usize
        ensures { result ≡ next_len self.now.log }
    {
        let left = self.bytes.len() - self.given;
        left.min(PIECE_BYTES)
            .min((LOG_FILE_BYTES - place_of(self.flushed)) as usize)
    }
}

impl Journal for Log {
    ghost used_of = { λ s. journal_of s.log };

    ghost outlet_of = { λ s. outlet_in s.log };

    ghost has_room = { λ s need. need ≤ s.room };

    /// Makes the memory for so many bytes more, so that the next `reserve` of as many wants none.
    ///
    /// # Errors
    /// `NoMemory`, also where positions would exceed 2^64; and then the log is as it was.
    fn make_room(&mut self, need: u64) -> Result<(), NoMemory>
        ensures ok { OnOk result (need ≤ self.new.room) }
        ensures same { journal_of self.new.log ≡ journal_of self.old.log }
        ensures outlet { outlet_in self.new.log ≡ outlet_in self.old.log }
        ensures log { self.new.log ≡ self.old.log }
        ensures succeeds { need ≤ self.old.room → IsOk result }
    {
        let left = self.bytes.len() - self.given;
        if need > u64::MAX - self.flushed - left as u64 - self.reserved {
            return Err(NoMemory);
        }
        self.bytes.reserve((self.reserved + need) as usize)?;
        Ok(())
    }

    /// Keeps so many bytes more free.
    ///
    /// # Errors
    /// `LogFull` exactly where what is used, reserved and needed exceeds 16,777,216; `NoMemory`
    /// where no room was made. Then the log is as it was.
    fn reserve(&mut self, need: u64) -> Result<(), JournalFault>
        requires { need < 2 ^ 32 }
        ensures answer { Reserves (journal_of self.old.log) need (journal_of self.new.log) result }
        ensures room { need ≤ self.old.room → result ≢ Err fault.NoMemory }
        ensures outlet { outlet_in self.new.log ≡ outlet_in self.old.log }
        ensures ok { OnOk result (self.new.log ≡ with_reserved self.old.log (self.old.log.reserved + need)) }
        ensures err { OnErr result (self.new.log ≡ self.old.log) }
    {
        let used = self.used();
        if used + self.reserved + need > JOURNAL_BYTES {
            return Err(JournalFault::LogFull {
                used,
                reserved: self.reserved,
                need,
            });
        }
        match self.make_room(need) {
            Ok(()) => {
                self.reserved += need;
                Ok(())
            }
            Err(_) => Err(JournalFault::NoMemory),
        }
    }

    /// Appends a record, in bytes that were kept free. Takes no memory.
    fn append(&mut self, redo: &Redo)
        requires { size_of redo.now ≤ (journal_of self.old.log).reserved }
        ensures used { journal_of self.new.log ≡ appending (journal_of self.old.log) (size_of redo.now) }
        ensures outlet { outlet_in self.new.log ≡ behind (outlet_in self.old.log) redo.now }
        ensures log { self.new.log ≡ appended self.old.log redo.now }
        ensures room { self.old.room ≤ self.new.room }
    {
        let size = redo.size();
        match encode(redo, &mut self.bytes) {
            Ok(()) => self.reserved -= size,
            Err(_) => unreachable!(),
        }
    }

    /// Keeps so many bytes fewer free.
    fn unreserve(&mut self, bytes: u64)
        requires { bytes ≤ (journal_of self.old.log).reserved }
        ensures used { journal_of self.new.log ≡ unreserving (journal_of self.old.log) bytes }
        ensures outlet { outlet_in self.new.log ≡ outlet_in self.old.log }
        ensures log { self.new.log ≡ with_reserved self.old.log (self.old.log.reserved - bytes) }
    {
        self.reserved -= bytes;
    }

    /// The next bytes to write, at their place: at most 32,768, and never across the end of a file.
    /// None exactly where all bytes are given out.
    ///
    /// # Errors
    /// `NoMemory`, and then the log is as it was.
    fn flush_step(&mut self) -> Result<Option<Piece>, NoMemory>
        ensures piece { IfOk result (λ given. GivesBytes (outlet_in self.old.log) given (outlet_in self.new.log)) }
        ensures err { OnErr result (outlet_in self.new.log ≡ outlet_in self.old.log) }
        ensures used { journal_of self.new.log ≡ journal_of self.old.log }
        ensures log { IfOk result (λ given. GivesOut self.old.log given self.new.log) }
        ensures same { OnErr result (self.new.log ≡ self.old.log) }
        ensures room { self.old.room ≤ self.new.room }
    {
        let len = self.next_len();
        if len == 0 {
            return Ok(None);
        }
        let end = self.given + len;
        let bytes = Vec::from_slice(self.alloc, &self.bytes[self.given..end])?;
        let piece = Piece {
            file: file_of(self.parity, self.flushed),
            at: place_of(self.flushed),
            bytes: Seq::from_vec(bytes),
        };
        self.given = end;
        self.flushed += len as u64;
        if self.given == self.bytes.len() {
            self.bytes.clear();
            self.given = 0;
        }
        Ok(Some(piece))
    }

    /// What is used counts from this position on: what stood before it is given up. Takes no memory.
    fn cut_to(&mut self, at: u64)
        requires least { end_of self.old.log ≤ at + (journal_of self.old.log).used }
        requires most { at ≤ self.old.log.flushed }
        ensures used { journal_of self.new.log ≡ used_from (journal_of self.old.log) (outlet_in self.old.log) at }
        ensures outlet { outlet_in self.new.log ≡ outlet_in self.old.log }
        ensures log { self.new.log ≡ cut_to self.old.log at }
        ensures room { self.new.room ≡ self.old.room }
    {
        self.start = at;
    }

    /// The position behind its last record.
    fn end(&self) -> u64
        ensures value { result ≡ end_of self.now.log }
        ensures order { self.now.log.start ≤ self.now.log.flushed }
    {
        self.flushed + (self.bytes.len() - self.given) as u64
    }
}
