//! What a line of a session says.

/// What a line of a session says.
#[derive(Clone, Copy)]
pub enum Line<'a> {
    /// It is empty, or a comment.
    Nothing,
    /// A session of this title begins.
    Session(&'a str),
    /// The words behind the program's name.
    Words(&'a str),
    /// The script goes on with this, and a newline, so many times.
    Script { line: &'a str, times: u32 },
    /// And with this, a carriage return and a newline.
    Returned(&'a str),
    /// And with this alone.
    Last(&'a str),
    /// And with so many spaces.
    Spaces(u32),
    /// The script is read in pieces of at most so many bytes.
    Read(u32),
    /// This call of the source fails.
    NoRead(u64),
    /// This call of the sink fails.
    NoWrite(u64),
    /// This call of a node's disk fails.
    NoCall { node: u8, at: u64 },
    /// What is written to a node's disk before the run.
    Lay(Laid<'a>),
    /// Of what a run prints only the last lines are told, so many.
    Tail(u32),
    /// The program is run again, on the disks that are left: what follows is its script.
    Again,
    /// The program is run again, and reads what it has written.
    Fed,
    /// The byte at this place of what is read is this one.
    Byte { at: usize, byte: u8 },
    /// The logs are told.
    Logs,
}

/// The place of a file of a node's disk, and the bytes that are written there, as numbers in words.
#[derive(Clone, Copy)]
pub struct Laid<'a> {
    pub node: u8,
    pub file: u8,
    pub at: u64,
    pub bytes: &'a str,
}

// The first word of a line, and what stands behind it.
fn cut_word(line: &str) -> (&str, &str) {
    match line.split_once(' ') {
        Some((first, rest)) => (first, rest),
        None => (line, ""),
    }
}

/// What a line says, if it is one of a session.
pub fn parse<'a>(line: &'a str) -> Option<Line<'a>> {
    let (first, rest) = cut_word(line);
    match first {
        "" if rest.is_empty() => Some(Line::Nothing),
        "#" => Some(Line::Nothing),
        "session" => Some(Line::Session(rest)),
        "words" => Some(Line::Words(rest)),
        ">" => Some(Line::Script {
            line: rest,
            times: 1,
        }),
        "crlf" => Some(Line::Returned(rest)),
        "last" => Some(Line::Last(rest)),
        "again" if rest.is_empty() => Some(Line::Again),
        "fed" if rest.is_empty() => Some(Line::Fed),
        "byte" => changed_byte(rest),
        "logs" if rest.is_empty() => Some(Line::Logs),
        "no" => failure(rest),
        "lay" => disk_write(rest),
        _ => number(first, rest),
    }
}

// The line of a call that fails.
fn failure<'a>(rest: &'a str) -> Option<Line<'a>> {
    let (call, rest) = cut_word(rest);
    match call {
        "read" => Some(Line::NoRead(rest.parse::<u64>().ok()?)),
        "write" => Some(Line::NoWrite(rest.parse::<u64>().ok()?)),
        "call" => disk_failure(rest),
        _ => None,
    }
}

// The node and the call of its disk that fails.
fn disk_failure<'a>(rest: &'a str) -> Option<Line<'a>> {
    let (node, at) = cut_word(rest);
    Some(Line::NoCall {
        node: node.parse::<u8>().ok()?,
        at: at.parse::<u64>().ok()?,
    })
}

// The line of bytes that are written to a disk.
fn disk_write<'a>(rest: &'a str) -> Option<Line<'a>> {
    let (node, rest) = cut_word(rest);
    let (file, rest) = cut_word(rest);
    let (at, bytes) = cut_word(rest);
    Some(Line::Lay(Laid {
        node: node.parse::<u8>().ok()?,
        file: file.parse::<u8>().ok()?,
        at: at.parse::<u64>().ok()?,
        bytes,
    }))
}

// The line of a byte that is changed.
fn changed_byte<'a>(rest: &'a str) -> Option<Line<'a>> {
    let (at, byte) = cut_word(rest);
    Some(Line::Byte {
        at: at.parse::<usize>().ok()?,
        byte: byte.parse::<u8>().ok()?,
    })
}

// A line with a number in it.
fn number<'a>(first: &'a str, rest: &'a str) -> Option<Line<'a>> {
    match first {
        "spaces" => Some(Line::Spaces(rest.parse::<u32>().ok()?)),
        "read" => Some(Line::Read(rest.parse::<u32>().ok()?)),
        "tail" => Some(Line::Tail(rest.parse::<u32>().ok()?)),
        _ => repeated(first.parse::<u32>().ok()?, rest),
    }
}

// A line of the script that stands there so many times.
fn repeated<'a>(times: u32, rest: &'a str) -> Option<Line<'a>> {
    let (word, line) = cut_word(rest);
    let (sign, line) = cut_word(line);
    if word == "times" && sign == ">" {
        Some(Line::Script { line, times })
    } else {
        None
    }
}
