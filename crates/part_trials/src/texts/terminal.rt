//! A terminal that keeps what it shows.
ghost use Rattle.std.specs.Prelude.{◌≤◌, None, length};

use host_io::{Failed, Sink, Source};
use std::cell::RefCell;

/// Adds bytes to what a terminal shows, and says whether there was room.
pub fn show(screen: &RefCell<Vec<u8>>, bytes: &[u8]) -> bool {
    match screen.try_borrow_mut() {
        Ok(mut shown) => shown.extend_from_slice(bytes).is_ok(),
        Err(_) => false,
    }
}

/// Where a terminal is written to.
#[derive(Drop)]
pub struct Shown<'a> {
    screen: &'a RefCell<Vec<u8>>,
    faults: u64,
}

impl<'a> Shown<'a> {
    /// The terminal that shows this.
    pub fn new(screen: &'a RefCell<Vec<u8>>) -> Shown<'a> {
        Shown { screen, faults: 0 }
    }
}

impl<'a> Sink for Shown<'a> {
    ghost written = { λ s. None };

    ghost faults = { λ s. s.faults };

    fn write(&mut self, bytes: &[u8]) -> Result<usize, Failed> {
        if show(self.screen, bytes) {
            return Ok(bytes.len());
        }
        self.faults = self.faults.saturating_add(1);
        Err(Failed)
    }

    fn faults(&self) -> u64 {
        self.faults
    }
}

/// What is typed at a terminal, which shows it: a read gives at most one line.
#[derive(Drop)]
pub struct Typed<'a> {
    text: &'a [u8],
    screen: &'a RefCell<Vec<u8>>,
    /// The read that fails, from 0.
    no_read: Option<u64>,
    reads: u64,
    faults: u64,
}

impl<'a> Typed<'a> {
    /// This text, typed at the terminal that shows this.
    pub fn new(text: &'a [u8], screen: &'a RefCell<Vec<u8>>, no_read: Option<u64>) -> Typed<'a> {
        Typed {
            text,
            screen,
            no_read,
            reads: 0,
            faults: 0,
        }
    }
}

impl<'a> Source for Typed<'a> {
    ghost left = { λ s. None };

    ghost faults = { λ s. s.faults };

    fn read(&mut self, buf: &mut [u8]) -> Result<usize, Failed> {
        let read = self.reads;
        self.reads = read.saturating_add(1);
        let count = line_len(self.text).min(buf.len());
        let line = &self.text[..count];
        if self.no_read == Some(read) || !show(self.screen, line) {
            self.faults = self.faults.saturating_add(1);
            return Err(Failed);
        }
        buf[..count].copy_from_slice(line);
        self.text = &self.text[count..];
        Ok(count)
    }

    fn faults(&self) -> u64 {
        self.faults
    }
}

/// How many bytes the first line has, with its newline.
fn line_len(text: &[u8]) -> usize
    ensures { result ≤ length text.now }
{
    match text.iter().position(|byte| *byte == b'\n') {
        Some(at) => at + 1,
        None => text.len(),
    }
}
