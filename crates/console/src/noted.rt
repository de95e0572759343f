//! The sink of a console: it hands on what is printed as it is, and takes notice of its lines.
ghost use Rattle.std.specs.Prelude.{◌≡◌, ◌≤◌, ◌<◌, take, length};

use crate::board::Board;
use crate::whole::write_whole;
use crate::word::cut_word;
use host_io::{Failed, Sink};
use std::alloc::{AllocError, Global};
use std::cell::RefCell;

const GREEN: &[u8] = b"\x1b[32m";

const RED: &[u8] = b"\x1b[31m";

const YELLOW: &[u8] = b"\x1b[33m";

const PLAIN: &[u8] = b"\x1b[0m";

/// The first words of replies that tell of something done.
const DONE: [&str; 6] = [
    "ok",
    "committed",
    "durable",
    "closed",
    "checkpoint",
    "restarted",
];

/// Of one that waits.
const WAITS: [&str; 1] = ["pending"];

/// Of errors, aborts, faults, and commands that can't be done.
const FAILED: [&str; 15] = [
    "error", "aborted", "unknown", "down", "line", "is", "not", "no", "busy", "too", "running",
    "disk", "shape", "damaged", "numbers",
];

/// A sink over another one, to which it hands what is printed and nothing else. Where it was given a
/// sink for colours, that gets the colour of each line in front of the line, and the plain one behind:
/// both are to be the same terminal.
#[derive(Drop)]
pub struct Noted<'a, K, C> {
    pub sink: K,
    colours: Option<C>,
    board: &'a RefCell<Board>,
    /// What was printed of a line that isn't whole yet.
    part: Vec<u8>,
}

impl<'a, K: Sink, C: Sink> Noted<'a, K, C> {
    /// A sink over this one, whose lines the board notes.
    pub fn new(
        alloc: Global,
        sink: K,
        colours: Option<C>,
        board: &'a RefCell<Board>,
    ) -> Noted<'a, K, C>
        ensures { result.sink ≡ sink }
    {
        Noted {
            sink,
            colours,
            board,
            part: Vec::new(alloc),
        }
    }
}

impl<'a, K: Sink, C: Sink> Sink for Noted<'a, K, C> {
    ghost written = { λ s. K.written s.sink };

    ghost faults = { λ s. K.faults s.sink };

    #[tactic(auto, using(crate::proofs::PieceLemmas::handing))]
    fn write(&mut self, bytes: &[u8]) -> Result<usize, Failed> {
        let piece = piece_of(self.colours.is_some(), bytes);
        let colour = colour_now(self.board, piece);
        show(&mut self.colours, colour);
        let outcome = self.sink.write(piece);
        if !colour.is_empty() {
            show(&mut self.colours, PLAIN);
        }
        let count = outcome?;
        take_notice(self.board, &mut self.part, &piece[..count]);
        Ok(count)
    }

    fn faults(&self) -> u64 {
        self.sink.faults()
    }
}

/// What is written at once: where there are colours a line without its newline, or the newline alone.
fn piece_of(has_colours: bool, bytes: &[u8]) -> &[u8]
    ensures front { result.now ≡ take (length result.now) bytes.now }
    ensures within { length result.now ≤ length bytes.now }
    ensures some { 0 < length bytes.now → 0 < length result.now }
{
    if !has_colours {
        return bytes;
    }
    let at = match bytes.iter().position(|byte| *byte == b'\n') {
        None => bytes.len(),
        Some(at) => at.max(1),
    };
    &bytes[..at]
}

/// Has the terminal show what comes in this colour. What can't be written is left out.
fn show<C: Sink>(colours: &mut Option<C>, colour: &[u8]) {
    if let Some(sink) = colours {
        let _ = write_whole(sink, colour);
    }
}

/// Notes the lines that are whole by these bytes, and keeps the rest. Where memory is wanting a line
/// isn't noticed.
fn take_notice(board: &RefCell<Board>, part: &mut Vec<u8>, bytes: &[u8]) {
    if let Ok(mut board) = board.try_borrow_mut() {
        if note_lines(&mut board, part, bytes).is_err() {
            part.clear();
        }
    }
}

fn note_lines(board: &mut Board, part: &mut Vec<u8>, bytes: &[u8]) -> Result<(), AllocError> {
    for line in bytes.split_inclusive(|byte| *byte == b'\n') {
        match line {
            [bare @ .., b'\n'] => {
                part.extend_from_slice(bare)?;
                board.note(part)?;
                part.clear();
            }
            _ => part.extend_from_slice(line)?,
        }
    }
    Ok(())
}

/// The colour of a line that is printed now, or nothing. Rows have none.
fn colour_now(board: &RefCell<Board>, line: &[u8]) -> &'static [u8] {
    match board.try_borrow() {
        Ok(board) if board.is_row(line) => b"",
        _ => colour_of(line),
    }
}

/// The colour of a reply, or nothing.
fn colour_of(line: &[u8]) -> &'static [u8] {
    let said = match line {
        [b'@', rest @ ..] => cut_word(rest).1,
        _ => line,
    };
    let word = cut_word(said).0;
    if is_one_of(word, &DONE) {
        GREEN
    } else if is_one_of(word, &WAITS) {
        YELLOW
    } else if is_one_of(word, &FAILED) {
        RED
    } else {
        b""
    }
}

fn is_one_of(word: &[u8], others: &[&str]) -> bool {
    others.iter().any(|other| other.as_bytes() == word)
}
