//! A console as the lines of the text tell it.
use crate::texts::fault::Fault;
use crate::texts::line::Line;
use console::{Numbers, numbers_of};
use std::alloc::Global;

/// A line that is typed, and what the session would print of it.
#[derive(Drop)]
pub struct Turn {
    pub line: Vec<u8>,
    pub replies: Vec<u8>,
}

/// A console as the lines of the text tell it.
#[derive(Drop)]
pub struct Trial {
    pub numbers: Numbers,
    pub has_colours: bool,
    /// All that is typed.
    pub typed: Vec<u8>,
    /// Its lines, in order.
    pub turns: Vec<Turn>,
    /// The read that fails, if one does.
    pub no_read: Option<u64>,
}

impl Trial {
    /// A console at which nothing is typed, of the cluster that the words ask for.
    ///
    /// # Errors
    /// Want of memory.
    pub fn new(alloc: Global, words: &str, has_colours: bool) -> Result<Trial, Fault> {
        let mut all = Vec::new(alloc);
        for word in words.split(' ') {
            all.push(String::from_str(alloc, word)?)?;
        }
        Ok(Trial {
            numbers: numbers_of(&all),
            has_colours,
            typed: Vec::new(alloc),
            turns: Vec::new(alloc),
            no_read: None,
        })
    }

    /// It goes on with this line.
    ///
    /// # Errors
    /// `Line` where none may stand, or want of memory.
    pub fn add(&mut self, alloc: Global, line: Line<'_>) -> Result<(), Fault> {
        match line {
            Line::Typed(line) => {
                self.add_turn(alloc, line.as_bytes())?;
                Ok(self.typed.push(b'\n')?)
            }
            Line::Last(line) => self.add_turn(alloc, line.as_bytes()),
            Line::Long(count) => self.add_long(alloc, count),
            Line::Reply(reply) => self.add_reply(reply.as_bytes()),
            Line::NoRead(call) => {
                self.no_read = Some(call);
                Ok(())
            }
            Line::Nothing | Line::Begin { .. } => Err(Fault::Line),
        }
    }

    fn add_turn(&mut self, alloc: Global, line: &[u8]) -> Result<(), Fault> {
        self.typed.extend_from_slice(line)?;
        let mut copy = Vec::new(alloc);
        copy.extend_from_slice(line)?;
        self.turns.push(Turn {
            line: copy,
            replies: Vec::new(alloc),
        })?;
        Ok(())
    }

    fn add_long(&mut self, alloc: Global, count: u32) -> Result<(), Fault> {
        let line = Vec::from_elem(alloc, b'a', count as usize)?;
        self.add_turn(alloc, &line)?;
        Ok(self.typed.push(b'\n')?)
    }

    fn add_reply(&mut self, reply: &[u8]) -> Result<(), Fault> {
        let Some(turn) = self.turns.last_mut() else {
            return Err(Fault::Line);
        };
        turn.replies.extend_from_slice(reply)?;
        Ok(turn.replies.push(b'\n')?)
    }
}
