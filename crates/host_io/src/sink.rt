//! Where bytes are written.
ghost use Rattle.std.specs.Prelude.{◌≡◌, ◌≤◌, ◌<◌, ◌+◌, ◌-◌, ◌^◌, ◌==◌, min, false, OnOk, ℕ, List, Option, Some, []};
ghost use Rattle.std.specs.Prelude.{IfOk, OnErr, length};
ghost use Rattle.std.specs.List.{list_any};
ghost use Rattle.std.specs.Io.KnownBytes.{WriteAppends};
ghost use Rattle.host_io.specs.Fault.{Rose};

use crate::Failed;
use std::alloc::{AllocError, Global};
use std::marker::Model;

/// Where bytes are written.
pub trait Sink {
    /// The bytes that were written, if the sink tells them.
    ghost written: { Self → Option (List ℕ) };

    /// How many of its calls failed. Stays at 2^64 - 1.
    ghost faults: { Self → ℕ };

    /// Writes the first of the bytes, and says how many: at least one if there are any.
    ///
    /// # Errors
    /// `Failed`, and then the count of faults has risen and nothing was written.
    fn write(&mut self, bytes: &[u8]) -> Result<usize, Failed>
        ensures within { IfOk result (λ n. n ≤ length bytes.now) }
        ensures some { IfOk result (λ n. 0 < length bytes.now → 0 < n) }
        ensures bytes { WriteAppends (written self.old) (written self.new) result bytes.now }
        ensures cause { OnErr result (Rose (faults self.old) (faults self.new)) }
        ensures steady { faults self.old ≤ faults self.new };

    /// The count of faults.
    fn faults(&self) -> u64
        ensures { result ≡ faults self.now };
}

/// A sink in memory. It counts its calls from 0, and those with the numbers that it was given fail,
/// as does one that finds no memory.
#[derive(Drop)]
pub struct MemSink {
    bytes: Vec<u8>,
    fails: Vec<u64>,
    calls: u64,
    faults: u64,
}

impl Model for MemSink {
    ghost use Rattle.host_io.specs.Sink.{Writing};

    ghost Value = { Writing };

    ghost view = { λ s. record { written = s.bytes.items; calls = s.calls; fails = s.fails.items; faults = s.faults } };
}

impl MemSink {
    /// A sink that holds nothing yet, and whose calls with the numbers in `fails` fail.
    ///
    /// # Errors
    /// Want of memory.
    pub fn new(alloc: Global, fails: Vec<u64>) -> Result<MemSink, AllocError>
        ensures { IfOk result (λ s. s ≡ record { written = []; calls = 0; fails = fails.items; faults = 0 }) }
    {
        Ok(MemSink {
            bytes: Vec::new(alloc),
            fails,
            calls: 0,
            faults: 0,
        })
    }

    /// The bytes that were written.
    pub fn written(&self) -> &[u8]
        ensures { result.now ≡ self.now.written }
    {
        &self.bytes
    }
}

impl Sink for MemSink {
    ghost written = { λ s. Some s.written };

    ghost faults = { λ s. s.faults };

    /// Writes all of the bytes, except at a call that is to fail or finds no memory.
    fn write(&mut self, bytes: &[u8]) -> Result<usize, Failed>
        ensures within { IfOk result (λ n. n ≤ length bytes.now) }
        ensures some { IfOk result (λ n. 0 < length bytes.now → 0 < n) }
        ensures bytes { WriteAppends (Some self.old.written) (Some self.new.written) result bytes.now }
        ensures cause { OnErr result (Rose self.old.faults self.new.faults) }
        ensures steady { self.old.faults ≤ self.new.faults }
        ensures planned { OnOk result (list_any (λ call. call == self.old.calls) self.old.fails ≡ false) }
        ensures counted { self.new.calls ≡ min (self.old.calls + 1) (2 ^ 64 - 1) }
        ensures same_plan { self.new.fails ≡ self.old.fails }
        ensures most { IfOk result (λ n. n ≡ length bytes.now) }
    {
        let call = self.calls;
        self.calls = call.saturating_add(1);
        if self.fails.contains(&call) || self.bytes.extend_from_slice(bytes).is_err() {
            self.faults = self.faults.saturating_add(1);
            return Err(Failed);
        }
        Ok(bytes.len())
    }

    fn faults(&self) -> u64 {
        self.faults
    }
}
