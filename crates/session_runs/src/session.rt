//! A session as its lines tell it.
use crate::fault::Fault;
use crate::line::{Laid, Line};
use std::alloc::Global;
use std::mem;

/// A run of the program: the words behind its name, its script, and what is written to disks before it.
#[derive(Drop)]
pub struct Run {
    pub words: Vec<String>,
    pub script: Vec<u8>,
    pub writes: Vec<DiskWrite>,
    /// Bytes of what is read that are changed.
    pub changes: Vec<Change>,
    /// Whether the next run reads what this one writes.
    pub feeds: bool,
}

/// A byte of what is read that is changed.
#[derive(Clone, Copy)]
pub struct Change {
    pub at: usize,
    pub byte: u8,
}

/// Bytes that are written to a node's disk.
#[derive(Drop)]
pub struct DiskWrite {
    pub node: u8,
    pub file: u8,
    pub at: u64,
    pub bytes: Vec<u8>,
}

/// A call of a node's disk.
#[derive(Clone, Copy)]
pub struct DiskCall {
    pub node: u8,
    pub at: u64,
}

/// How the runs of a session are read and written, and what is told of them.
#[derive(Drop)]
pub struct Setting {
    /// How many bytes a read gives at most.
    pub piece: usize,
    /// The calls of the source that fail, and those of the sink.
    pub no_reads: Vec<u64>,
    pub no_writes: Vec<u64>,
    /// The calls of disks that fail.
    pub no_calls: Vec<DiskCall>,
    /// How many of the lines that a run prints are told at most, the last ones.
    pub tail: usize,
    /// Whether the logs are told at the end.
    pub tells_logs: bool,
}

/// A session as its lines tell it.
#[derive(Drop)]
pub struct Session {
    pub title: String,
    /// The run that is being told, and those before it, on the same disks.
    pub run: Run,
    pub earlier: Vec<Run>,
    pub setting: Setting,
}

impl Run {
    // A run with no words and an empty script.
    fn new(alloc: Global) -> Run {
        Run {
            words: Vec::new(alloc),
            script: Vec::new(alloc),
            writes: Vec::new(alloc),
            changes: Vec::new(alloc),
            feeds: false,
        }
    }
}

impl Session {
    /// A session with no words and an empty script.
    pub fn new(alloc: Global, title: &str) -> Result<Session, Fault> {
        Ok(Session {
            title: String::from_str(alloc, title)?,
            run: Run::new(alloc),
            earlier: Vec::new(alloc),
            setting: Setting {
                piece: usize::MAX,
                no_reads: Vec::new(alloc),
                no_writes: Vec::new(alloc),
                no_calls: Vec::new(alloc),
                tail: usize::MAX,
                tells_logs: false,
            },
        })
    }

    /// It goes on with this line.
    pub fn add(&mut self, alloc: Global, line: Line<'_>) -> Result<(), Fault> {
        match line {
            Line::Words(words) => self.add_words(alloc, words),
            Line::Script { line, times } => self.add_lines(line, times),
            Line::Returned(line) => self.add_returned(line),
            Line::Last(line) => Ok(self.run.script.extend_from_slice(line.as_bytes())?),
            Line::Spaces(count) => self.add_spaces(count),
            Line::Lay(laid) => self.add_write(alloc, laid),
            Line::Again => self.next_run(alloc),
            Line::Fed => {
                self.run.feeds = true;
                self.next_run(alloc)
            }
            Line::Byte { at, byte } => Ok(self.run.changes.push(Change { at, byte })?),
            line => self.setting.set(line),
        }
    }

    // Another run follows.
    fn next_run(&mut self, alloc: Global) -> Result<(), Fault> {
        let run = mem::replace(&mut self.run, Run::new(alloc));
        Ok(self.earlier.push(run)?)
    }

    fn add_words(&mut self, alloc: Global, words: &str) -> Result<(), Fault> {
        for word in words.split(' ') {
            self.run.words.push(String::from_str(alloc, word)?)?;
        }
        Ok(())
    }

    fn add_lines(&mut self, line: &str, times: u32) -> Result<(), Fault> {
        for _ in 0..times {
            self.run.script.extend_from_slice(line.as_bytes())?;
            self.run.script.push(b'\n')?;
        }
        Ok(())
    }

    fn add_returned(&mut self, line: &str) -> Result<(), Fault> {
        self.run.script.extend_from_slice(line.as_bytes())?;
        Ok(self.run.script.extend_from_slice(b"\r\n")?)
    }

    fn add_spaces(&mut self, count: u32) -> Result<(), Fault> {
        for _ in 0..count {
            self.run.script.push(b' ')?;
        }
        Ok(())
    }

    fn add_write(&mut self, alloc: Global, laid: Laid<'_>) -> Result<(), Fault> {
        let mut bytes = Vec::new(alloc);
        for word in laid.bytes.split(' ') {
            match word.parse::<u8>() {
                Ok(byte) => bytes.push(byte)?,
                Err(_) => return Err(Fault::Line),
            }
        }
        Ok(
            self.run.writes.push(DiskWrite {
                node: laid.node,
                file: laid.file,
                at: laid.at,
                bytes,
            })?,
        )
    }
}

impl Setting {
    fn set(&mut self, line: Line<'_>) -> Result<(), Fault> {
        match line {
            Line::Read(piece) => self.piece = piece as usize,
            Line::NoRead(at) => self.no_reads.push(at)?,
            Line::NoWrite(at) => self.no_writes.push(at)?,
            Line::NoCall { node, at } => self.no_calls.push(DiskCall { node, at })?,
            Line::Tail(lines) => self.tail = lines as usize,
            Line::Logs => self.tells_logs = true,
            _ => return Err(Fault::Line),
        }
        Ok(())
    }
}
