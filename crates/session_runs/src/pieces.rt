//! A source that gives a script in pieces.
ghost use Rattle.std.specs.Prelude.{Some};

use host_io::{Failed, MemSource, Source};

/// A source in memory that gives at most so many bytes a read.
#[derive(Drop)]
pub struct Pieces {
    pub source: MemSource,
    pub most: usize,
}

impl Source for Pieces {
    ghost use Rattle.std.specs.Prelude.{Some};

    ghost left = { λ p. Some p.source.left };

    ghost faults = { λ p. p.source.faults };

    fn read(&mut self, buf: &mut [u8]) -> Result<usize, Failed> {
        let size = buf.len().min(self.most).max(1).min(buf.len());
        self.source.read(&mut buf[..size])
    }

    fn faults(&self) -> u64 {
        self.source.faults()
    }
}
