//! Consoles and loads, tried out, as a text on standard input has them. It tells what is typed at a console, and what a
//! session would answer, and printed is what the terminal shows, and then the lines that the session was given. It names
//! waves and whole loads, and printed is each such line, and behind it the lines of the wave, or how long the script of
//! the load is and that script's MD5 digest.
//!
//! | line | what it says |
//! |---|---|
//! | `wave SEED W N` | the commands of the first N transactions of wave W, from 0, each as the line that it is of |
//! | `load COUNT SEED` | the whole load, of at most 100,000 transactions, as a script of batches and of `gcp` |
//! | `console WORD ..` | a console begins, of the cluster that these words of the program ask for |
//! | `colours WORD ..` | one with colours |
//! | `> LINE` | this is typed, and a newline |
//! | `last LINE` | this is typed, with no newline behind it |
//! | `long N` | so many letters are typed, and a newline |
//! | `< LINE` | what the session prints of the line above, if it is given that line |
//! | `no read N` | the read of this number, from 0, fails |
//!
//! Where a command of a wave isn't one of a batch, `no line of a batch` follows it. Escape characters are printed as
//! `^[`. A console goes up to the next one, or to a line of a load. Empty lines say nothing, nor do comments, which begin
//! with `#` and a space. A line that is none of these, or may not stand there, is a fault, and then nothing of the text
//! is printed.

mod fault;
mod line;
mod loads;
mod play;
mod terminal;
mod trial;

use crate::stopped::Stopped;
use crate::texts::fault::Fault;
use crate::texts::line::{Line, parse};
use crate::texts::loads::{Wanted, add_told};
use crate::texts::play::play;
use crate::texts::trial::Trial;
use std::alloc::Global;
use std::io;

/// Takes a line of the text: where a console begins, the one before it is played.
fn take(
    alloc: Global,
    line: Line<'_>,
    trial: &mut Option<Trial>,
    text: &mut Vec<u8>,
) -> Result<(), Fault> {
    if let Line::Begin { words, has_colours } = line {
        let next = Trial::new(alloc, words, has_colours)?;
        if let Some(ended) = trial.replace(next) {
            play(alloc, ended, text)?;
        }
        return Ok(());
    }
    match trial {
        Some(trial) => trial.add(alloc, line),
        None => Err(Fault::Line),
    }
}

/// Takes a line that asks for a wave or a load, behind the console before it.
fn take_load(
    alloc: Global,
    line: &str,
    wanted: Wanted,
    trial: &mut Option<Trial>,
    text: &mut Vec<u8>,
) -> Result<(), Fault> {
    if let Some(ended) = trial.take() {
        play(alloc, ended, text)?;
    }
    Ok(add_told(alloc, line, wanted, text)?)
}

/// Takes any line of the text.
fn take_any(
    alloc: Global,
    line: &str,
    trial: &mut Option<Trial>,
    text: &mut Vec<u8>,
) -> Result<(), Fault> {
    if let Some(wanted) = loads::parse(line) {
        return take_load(alloc, line, wanted, trial, text);
    }
    match parse(line) {
        Some(Line::Nothing) => Ok(()),
        Some(line) => take(alloc, line, trial, text),
        None => Err(Fault::Line),
    }
}

/// What comes of the lines of a text; the number of a line that is none of one is left in `at`.
fn told(alloc: Global, input: &str, at: &mut u32) -> Result<Vec<u8>, Fault> {
    let mut text = Vec::new(alloc);
    let mut trial = None;
    for line in input.lines() {
        *at = at.saturating_add(1);
        take_any(alloc, line, &mut trial, &mut text)?;
    }
    if let Some(ended) = trial {
        play(alloc, ended, &mut text)?;
    }
    Ok(text)
}

// Prints what came of the text.
fn print_told(rt: &HostRuntime, told: Vec<u8>) -> Result<bool, Stopped> {
    match String::from_utf8(told) {
        Ok(text) => print!(rt; "{text}")?,
        Err(_) => return Ok(false),
    }
    Ok(true)
}

/// Tries what standard input has, and says whether it is such a text.
///
/// # Errors
/// A call of the system that failed.
pub fn try_all(rt: &HostRuntime) -> Result<bool, Stopped> {
    let input = io::read_to_string(rt.alloc(), rt.reader())?;
    let mut at = 0;
    match told(rt.alloc(), input.as_str(), &mut at) {
        Ok(told) => print_told(rt, told),
        Err(Fault::Line) => {
            println!(rt; "line {at} is no line of a console or a load")?;
            Ok(false)
        }
        Err(Fault::NoMemory) => {
            println!(rt; "out of memory")?;
            Ok(false)
        }
    }
}
