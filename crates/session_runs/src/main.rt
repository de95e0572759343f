//! Worked sessions: a text names sessions, each with the words behind the program's name and a script,
//! and this program prints what `run_shell` prints, and how it ends.
//!
//! A session begins with its title, `session TITLE`, and goes up to the next one.
//!
//! | line | what it says |
//! |---|---|
//! | `words WORD ..` | the words behind the program's name, each behind one space; without it there are none |
//! | `> LINE` | a line of the script |
//! | `crlf LINE` | a line of the script that ends with a carriage return and a newline |
//! | `last LINE` | a line with no newline behind it |
//! | `spaces N` | so many spaces, with no newline behind them |
//! | `read N` | the script is read in pieces of at most so many bytes |
//! | `no read N`, `no write N` | the call of this number, from 0, fails |
//! | `no call N C` | call C of the disk of node N, from 0, fails |
//! | `lay N F P B ..` | before the program is run, these bytes are written to file F of the disk of node N, from place P on |
//! | `again` | the program is run once more, with the words and the script that follow, on the disks that are left |
//! | `fed` | the same, but it reads first what it wrote before, of which only the number of bytes is told |
//! | `byte P B` | byte P of what is read, from 0, is B |
//! | `logs` | at the end, the logs of each life are told: how many steps a host has, and which marks stand there |
//! | `N times > LINE` | a line of the script, so many times |
//! | `tail N` | of what each run prints only so many lines are told, the last |
//!
//! Printed are the title, what the session prints, and `status N`; where reads or writes failed, how
//! many; and what is told of logs. Empty lines say nothing, nor do comments, which begin with `#` and a
//! space. A line that is none of these, or may not stand there, ends the program with status 2.
#![tactic(auto)]

mod fault;
mod line;
mod logs;
mod pieces;
mod play;
mod session;

use fault::Fault;
use line::{Line, parse};
use play::play;
use session::Session;
use std::alloc::Global;
use std::io;
use std::process::ExitCode;
use std::sync::Wait;
use std::test::Fail;
use std::thread::Threads;

/// The status where memory is wanting.
const NO_MEMORY: u8 = 5;

/// Takes a line of the text: where a session begins, the one before it is played.
fn take<R: Threads + Wait + Sync>(
    rt: &R,
    alloc: Global,
    line: Line<'_>,
    session: &mut Option<Session>,
    text: &mut Vec<u8>,
) -> Result<(), Fault> {
    if let Line::Session(title) = line {
        let next = Session::new(alloc, title)?;
        if let Some(ended) = session.replace(next) {
            play(rt, alloc, ended, text)?;
        }
        return Ok(());
    }
    match session {
        Some(session) => session.add(alloc, line),
        None => Err(Fault::Line),
    }
}

/// What comes of the sessions of a text; the number of a line that is none of a session is left in
/// `at`.
fn told<R: Threads + Wait + Sync>(
    rt: &R,
    alloc: Global,
    input: &str,
    at: &mut u32,
) -> Result<Vec<u8>, Fault> {
    let mut text = Vec::new(alloc);
    let mut session = None;
    for line in input.lines() {
        *at = at.saturating_add(1);
        match parse(line) {
            Some(Line::Nothing) => {}
            Some(line) => take(rt, alloc, line, &mut session, &mut text)?,
            None => return Err(Fault::Line),
        }
    }
    if let Some(ended) = session {
        play(rt, alloc, ended, &mut text)?;
    }
    Ok(text)
}

fn main(rt: HostRuntime) -> Result<ExitCode, Fail> {
    let alloc = rt.alloc();
    let input = io::read_to_string(alloc, rt.reader())?;
    let mut at = 0;
    match told(&rt, alloc, input.as_str(), &mut at) {
        Ok(text) => {
            let text = String::from_utf8(text)?;
            print!(rt; "{text}")?;
            Ok(ExitCode::from(0))
        }
        Err(Fault::Line) => {
            println!(rt; "line {at} is no line of a session")?;
            Ok(ExitCode::from(2))
        }
        Err(Fault::NoMemory) => {
            println!(rt; "out of memory")?;
            Ok(ExitCode::from(NO_MEMORY))
        }
    }
}
