//! Trials of the parts that a node is made of: its rows, its local checkpoints, and its restarts. The words are one
//! trial behind the other, each with its numbers.
//!
//! | words | what is tried |
//! |---|---|
//! | `calls SEED COUNT` | so many random calls, on the row store and on rows as they are defined |
//! | `rows COUNT` | how many insertions, look-ups and deletions in a second the row store does, and other stores |
//! | `formats COUNT` | how many bytes of redo and of a checkpoint are written and read in a second |
//! | `walks SEED COUNT` | so many random runs of local checkpoints, the first of this seed |
//! | `lay ROWS REDO` | a disk with so many rows and bytes of redo is laid out, and what opening it writes is written |
//! | `open ROWS REDO` | it is laid out and opened, and has to have the right rows |
//! | `time ROWS REDO` | it is opened, and the nanoseconds of restoring and of making ready are printed |
//! | `stops`, `long` | restarts of two nodes that stop at each call, without and with long rows |
//! | `fails`, `want` | restarts where each call fails, and where memory is wanting once |
//! | `forms`, `version1` | restarts on all forms of disks, and with flipped bits of a checkpoint of version 1 |
//! | `bit0` to `bit7` | restarts with this bit of each byte flipped |
//! | `folders`, `full` | lives in folders, and on a device that has to get full |
//! | `texts` | consoles and loads, as a text on standard input has them |
//!
//! The status is 1 where a trial doesn't come out, and 2 where the words aren't such.
#![tactic(auto)]

mod dice;
mod keys;
mod opening;
mod restarts;
mod stopped;
mod stores;
mod texts;
mod walks;
mod watch;

use opening::Size;
use std::env;
use std::process::ExitCode;
use std::test::Fail;
use stopped::Stopped;

const USAGE: &str =
    "usage: part_trials [calls|walks SEED COUNT | rows|formats COUNT | lay|open|time ROWS REDO | stops | long | fails \
| want | forms | version1 | bit0 | .. | bit7 | folders | full | texts]..";

/// How many numbers stand behind a word.
fn numbers_behind(word: &str) -> usize {
    match word {
        "calls" | "walks" | "lay" | "open" | "time" => 2,
        "rows" | "formats" => 1,
        _ => 0,
    }
}

// Tries what a word with two numbers asks for, and says whether it came out; none where no trial has the word, here
// and below.
fn try_pair(rt: &HostRuntime, word: &str, one: u64, other: u64) -> Result<Option<bool>, Fail> {
    match word {
        "calls" => Ok(Some(stores::try_calls(rt, one, other)?)),
        "walks" => Ok(Some(walks::try_all(rt, one, other)?)),
        _ => try_opening(
            rt,
            word,
            Size {
                rows: one,
                redo: other,
            },
        ),
    }
}

fn try_opening(rt: &HostRuntime, word: &str, size: Size) -> Result<Option<bool>, Fail> {
    match word {
        "lay" => Ok(Some(opening::lay_alone(rt, size)?)),
        "open" => Ok(Some(opening::open(rt, size)?)),
        "time" => Ok(Some(opening::time_opening(rt, size)?)),
        _ => Ok(None),
    }
}

fn try_counted(rt: &HostRuntime, word: &str, count: u64) -> Result<Option<bool>, Fail> {
    match word {
        "rows" => Ok(Some(stores::time_rows(rt, count)?)),
        "formats" => Ok(Some(stores::time_formats(rt, count)?)),
        _ => Ok(None),
    }
}

fn try_alone(rt: &HostRuntime, word: &str) -> Result<Option<bool>, Stopped> {
    match word {
        "texts" => Ok(Some(texts::try_all(rt)?)),
        _ => restarts::try_one(rt, word),
    }
}

// The same of a word with the numbers behind it.
fn try_one(rt: &HostRuntime, word: &str, numbers: &[String]) -> Result<Option<bool>, Fail> {
    match numbers {
        [] => Ok(try_alone(rt, word)?),
        [count] => match count.as_str().parse::<u64>() {
            Ok(count) => try_counted(rt, word, count),
            Err(_) => Ok(None),
        },
        [one, other] => match (one.as_str().parse::<u64>(), other.as_str().parse::<u64>()) {
            (Ok(one), Ok(other)) => try_pair(rt, word, one, other),
            _ => Ok(None),
        },
        _ => Ok(None),
    }
}

// Tries all that the words ask for, and says whether all came out.
fn try_all(rt: &HostRuntime, words: &[String]) -> Result<Option<bool>, Fail> {
    let mut passed = true;
    let mut left = words;
    for _ in 0..words.len() {
        let Some((word, behind)) = left.split_first() else {
            break;
        };
        let count = numbers_behind(word.as_str());
        if behind.len() < count {
            return Ok(None);
        }
        let (numbers, next) = behind.split_at(count);
        match try_one(rt, word.as_str(), numbers)? {
            Some(came_out) => passed &= came_out,
            None => return Ok(None),
        }
        left = next;
    }
    Ok(Some(passed))
}

fn main(rt: HostRuntime) -> Result<ExitCode, Fail> {
    let mut words = Vec::new(rt.alloc());
    for word in env::args(&rt)?.skip(1) {
        words.push(word)?;
    }
    match try_all(&rt, words.as_slice())? {
        Some(passed) => Ok(ExitCode::from(if passed { 0 } else { 1 })),
        None => {
            println!(rt; "{USAGE}")?;
            Ok(ExitCode::from(2))
        }
    }
}
