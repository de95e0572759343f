//! What the console keeps of the replies: which transactions are open, and what there is to tell.
use crate::word::cut_word;
use script_lang::{first_word, read_digits};
use std::alloc::{AllocError, Global};

/// Why something waits, or comes to nothing.
#[derive(Clone, Copy)]
pub enum Hint {
    Held,
    Cut,
    Node,
    /// Each node of the view has stopped.
    Down,
}

/// What the console keeps of the replies.
#[derive(Drop)]
pub struct Board {
    /// The transactions that are open, in the order in which they began.
    open: Vec<u16>,
    /// Whether rows are told now, whose lines may look like replies.
    is_listing: bool,
    /// What is to be told with the next prompt.
    hint: Option<Hint>,
    told_held: bool,
    told_cut: bool,
    told_node: bool,
    told_down: bool,
}

impl Board {
    /// Before the first reply.
    pub fn new(alloc: Global) -> Board {
        Board {
            open: Vec::new(alloc),
            is_listing: false,
            hint: None,
            told_held: false,
            told_cut: false,
            told_node: false,
            told_down: false,
        }
    }

    /// The transactions that are open.
    pub fn open(&self) -> &[u16] {
        &self.open
    }

    /// Whether a line that is printed now is a row: a key and a value, while rows are told.
    pub fn is_row(&self, line: &[u8]) -> bool {
        self.is_listing && line.iter().filter(|byte| **byte == b' ').count() == 1
    }

    /// Takes notice of a line that the session is given.
    pub fn note_given(&mut self, line: &[u8]) {
        self.is_listing = first_word(line) == Some(b"rows".as_slice());
    }

    /// Takes notice of a line that was printed.
    ///
    /// # Errors
    /// Want of memory.
    pub fn note(&mut self, line: &[u8]) -> Result<(), AllocError> {
        if self.is_row(line) {
            return Ok(());
        }
        let Some((name, said)) = named(line) else {
            // Of the transactions that were open the session tells nothing any more.
            if line == b"crashed".as_slice() {
                self.open.clear();
            }
            self.note_pending(line);
            return Ok(());
        };
        if said.starts_with(b"begun ".as_slice()) {
            self.open.push(name)?;
        } else if has_ended(said) {
            self.open.retain(|other| *other != name);
        } else {
            self.note_pending(said);
        }
        Ok(())
    }

    fn note_pending(&mut self, said: &[u8]) {
        if said.starts_with(b"pending held by ".as_slice()) {
            self.hint = Some(Hint::Held);
        } else if said.starts_with(b"pending cut ".as_slice()) {
            self.hint = Some(Hint::Cut);
        } else if said.starts_with(b"pending node ".as_slice()) {
            self.hint = Some(Hint::Node);
        } else if said == b"down".as_slice() {
            self.hint = Some(Hint::Down);
        }
    }

    /// What is to be told now: each thing once in a session.
    pub fn take_hint(&mut self) -> Option<Hint> {
        let hint = self.hint?;
        self.hint = None;
        let told = match hint {
            Hint::Held => &mut self.told_held,
            Hint::Cut => &mut self.told_cut,
            Hint::Node => &mut self.told_node,
            Hint::Down => &mut self.told_down,
        };
        if *told {
            return None;
        }
        *told = true;
        Some(hint)
    }
}

/// Whether a transaction of which this is said has ended.
fn has_ended(said: &[u8]) -> bool {
    said.starts_with(b"committed ".as_slice())
        || said.starts_with(b"aborted ".as_slice())
        || said == b"unknown".as_slice()
}

/// The transaction that a reply is about, and what it says of it.
fn named(line: &[u8]) -> Option<(u16, &[u8])> {
    let [b'@', rest @ ..] = line else {
        return None;
    };
    let (digits, said) = cut_word(rest);
    let name = u16::try_from(read_digits(digits, 65_535)?).ok()?;
    Some((name, said))
}
