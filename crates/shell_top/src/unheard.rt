//! A sink that nobody hears.
ghost use Rattle.std.specs.Prelude.{None};

use host_io::{Failed, Sink};

/// Drops what it is given, and never fails.
#[derive(Drop)]
pub struct Unheard;

impl Sink for Unheard {
    ghost use Rattle.std.specs.Prelude.{None};

    ghost written = { λ _. None };

    ghost faults = { λ _. 0 };

    fn write(&mut self, bytes: &[u8]) -> Result<usize, Failed> {
        Ok(bytes.len())
    }

    fn faults(&self) -> u64 {
        0
    }
}
