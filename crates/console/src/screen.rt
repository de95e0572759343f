//! What the console tells its user beside the replies: prompts, help, and why a line isn't taken.
use crate::board::{Board, Hint};
use crate::explain::explanation;
use crate::form::form_of;
use crate::help;
use crate::near::nearest;
use crate::whole::write_whole;
use crate::word::{shown, words_of};
use host_io::Sink;
use std::alloc::{AllocError, Global};
use std::cell::RefCell;

const RED: &str = "\x1b[31m";

const YELLOW: &str = "\x1b[33m";

const PLAIN: &str = "\x1b[0m";

/// How many transactions a prompt names.
const NAMES: usize = 8;

/// Where a console tells its user of lines.
pub trait Notes {
    /// A line is waited for.
    fn prompt(&mut self);

    /// A line wasn't taken: it is empty, a comment, a question to the console, or wrong.
    fn pass(&mut self, line: &[u8]);

    /// A line was taken, and the session is given it.
    fn give(&mut self, line: &[u8]);

    /// The source is at its end, or the session has had as many lines as it takes.
    fn end(&mut self, is_full: bool);
}

/// The number of nodes, of replicas and of fragments of the cluster.
#[derive(Clone, Copy)]
pub struct Numbers {
    pub nodes: u8,
    pub replicas: u8,
    pub fragments: u8,
}

/// Notes that are written to a sink. What can't be written, or finds no memory, is left out.
#[derive(Drop)]
pub struct Screen<'a, K> {
    alloc: Global,
    sink: K,
    board: &'a RefCell<Board>,
    numbers: Numbers,
    has_colours: bool,
    has_greeted: bool,
}

impl<'a, K: Sink> Screen<'a, K> {
    /// Notes over this sink, with colours or without, for a cluster of these numbers.
    pub fn new(
        alloc: Global,
        sink: K,
        board: &'a RefCell<Board>,
        numbers: Numbers,
        has_colours: bool,
    ) -> Screen<'a, K> {
        Screen {
            alloc,
            sink,
            board,
            numbers,
            has_colours,
            has_greeted: false,
        }
    }

    /// What is told once, with the first prompt.
    fn greeting(&self) -> Result<String, AllocError> {
        let Numbers {
            nodes,
            replicas,
            fragments,
        } = self.numbers;
        let mut text = format!(in self.alloc;
            "ndb: nodes {nodes}, replicas {replicas}, fragments {fragments}. "
        )?;
        text.push_str("`help` tells more, ^D ends.\n")?;
        Ok(text)
    }

    fn tell(&mut self, text: &[u8]) {
        let _ = write_whole(&mut self.sink, text);
    }

    fn try_prompt(&mut self) -> Result<String, AllocError> {
        let mut text = if self.has_greeted {
            String::new(self.alloc)
        } else {
            self.greeting()?
        };
        self.has_greeted = true;
        if let Ok(mut board) = self.board.try_borrow_mut() {
            if let Some(hint) = board.take_hint() {
                text.push_str(&self.painted(YELLOW, hinted(hint))?)?;
            }
            let Numbers {
                nodes,
                replicas,
                fragments,
            } = self.numbers;
            text.push_str(&format!(in self.alloc; "ndb {nodes}/{replicas}/{fragments}")?)?;
            text.push_str(&names(self.alloc, board.open())?)?;
        }
        text.push_str("> ")?;
        Ok(text)
    }

    /// What is told of a line that isn't taken.
    fn answer(&self, line: &[u8]) -> Result<String, AllocError> {
        let words = words_of(self.alloc, line)?;
        let Some((first, rest)) = words.split_first() else {
            return Ok(String::new(self.alloc));
        };
        if first.bytes.first() == Some(&b'#') {
            return Ok(String::new(self.alloc));
        }
        if first.bytes == b"help".as_slice() || first.bytes == b"?".as_slice() {
            return match rest.first() {
                None => String::from_str(self.alloc, help::ALL),
                Some(topic) => about(self.alloc, topic.bytes),
            };
        }
        let text = explanation(self.alloc, self.numbers.nodes, line)?;
        self.painted(RED, &text)
    }

    /// Lines in a colour, where there are colours. The last newline stands behind it, so that a prompt
    /// begins plainly.
    fn painted(&self, colour: &str, text: &str) -> Result<String, AllocError> {
        if !self.has_colours {
            return String::from_str(self.alloc, text);
        }
        let lines = text.trim_end_matches('\n');
        format!(in self.alloc; "{colour}{lines}{PLAIN}\n")
    }
}

/// The names of the transactions that are open, as the prompt shows them: the first, and how many
/// there are besides.
fn names(alloc: Global, open: &[u16]) -> Result<String, AllocError> {
    let mut text = String::new(alloc);
    for name in open.iter().take(NAMES) {
        text.push_str(&format!(in alloc; " @{name}")?)?;
    }
    let more = open.len().saturating_sub(NAMES);
    if more > 0 {
        text.push_str(&format!(in alloc; " and {more} more")?)?;
    }
    Ok(text)
}

fn hinted(hint: Hint) -> &'static str {
    match hint {
        Hint::Held => help::HELD,
        Hint::Cut => help::CUT,
        Hint::Node => help::NODE,
        Hint::Down => help::DOWN,
    }
}

/// What is told of a command, or of another thing.
fn about(alloc: Global, topic: &[u8]) -> Result<String, AllocError> {
    if let Some(form) = form_of(topic) {
        return String::from_str(alloc, help::of_form(form));
    }
    if topic == b"pending".as_slice() {
        let mut text = String::from_str(alloc, help::HELD)?;
        text.push_str(help::CUT)?;
        text.push_str(help::NODE)?;
        text.push_str(help::DOWN)?;
        return Ok(text);
    }
    if topic == b"keys".as_slice() {
        return String::from_str(alloc, help::KEYS);
    }
    if topic.first() == Some(&b'@') {
        return String::from_str(alloc, help::NAMED);
    }
    let name = shown(alloc, topic)?;
    match nearest(alloc, &name)? {
        Some(near) => format!(in alloc; "there is no `{name}`; `help {near}` tells of `{near}`\n"),
        None => format!(in alloc; "there is no `{name}`; `help` shows the commands\n"),
    }
}

impl<'a, K: Sink> Notes for Screen<'a, K> {
    fn prompt(&mut self) {
        if let Ok(text) = self.try_prompt() {
            self.tell(text.as_bytes());
        }
    }

    fn pass(&mut self, line: &[u8]) {
        if let Ok(text) = self.answer(line) {
            self.tell(text.as_bytes());
        }
    }

    fn give(&mut self, line: &[u8]) {
        if let Ok(mut board) = self.board.try_borrow_mut() {
            board.note_given(line);
        }
    }

    fn end(&mut self, is_full: bool) {
        if is_full {
            self.tell(b"\nthe session has had 65536 lines, and ends\n");
        } else {
            self.tell(b"\n");
        }
    }
}
