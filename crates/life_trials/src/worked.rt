//! Worked runs of a cluster that fails, and whose nodes have disks: a text names runs, with what is asked, which
//! signals are taken, what stops or is cut, when power is lost, and which calls of disks fail; what comes of each is
//! printed.
//!
//! A run begins with its title, `run TITLE`, of disks that were never written, and goes up to the next title. Right
//! behind it the shape of its cluster may stand, `shape NODES REPLICAS FRAGMENTS` (without it, 2 2 4), and right behind
//! a `restart` another one of as many nodes, with which the cluster is to go on. With a line `points N` it is made N
//! times, each time with one signal more at `drive point`; without, once. Empty lines say nothing, nor do comments,
//! which begin with `#` and a space. COMMAND is one of the script language, but for those two that have lines of their
//! own, and hosts are numbers: 0 is the shell's, and node k has 3k - 2 (main), 3k - 1 (tc) and 3k (ldm).
//!
//! | line | what happens |
//! |---|---|
//! | `fail NODE CALL` | the call of this number, from 0, of the node's disk fails; it stands where a run begins |
//! | `lay NODE PICK` | 0 to 255, says what a cut of power leaves of one place of the node's disk; so too |
//! | `ask COMMAND` | the shell is asked for it, and no signal is taken |
//! | `do COMMAND` | the same, with signals taken to quiet, and questions about what is open then |
//! | `take HOST FROM` | the first signal of the link is taken; N of them with `times N` |
//! | `stop HOST` | the host stops; with `lose N`, the youngest N of each of its links are lost |
//! | `cut HOST NODE` | the host cuts off the hosts of a node |
//! | `drive` | signals are taken until none is under way |
//! | `drive N`, `drive point` | so many are taken, in the order of `drive`; some may be for a host that has stopped |
//! | `crash` | power is cut: of what isn't synced the disks keep what they were told to keep |
//! | `restart` | the life ends, and the next one begins on its disks |
//! | `flip NODE FILE AT` | behind a `crash`, all bits of a byte of a node's disk change; it is told which stood there |
//! | `calls NODE` | it is told how many calls of the node's disk were made |
//! | `life` | the rows that the life began with are told, how many, and which life it is, from 1 |
//! | `log HOST` | at the end of the life, the steps of the host are told: the signal taken, and its marks |
//! | `count KIND` | at the end of the life, it is told how many signals of that kind were taken |
//!
//! Printed are the title and then the replies, in order; `empty` or `gone` where a signal can't be
//! taken or a host can't stop or cut, and then no more of that line is done; `down` where the cluster goes down, and
//! from a `crash` to the `restart`; and what is told of logs. A line that is none of these, or may not stand there,
//! ends the program with status 2 before any run.
mod cluster;
mod disks;
mod fault;
mod kind;
mod line;
mod play;
mod run;
mod telling;
mod trace;
mod words;

use crate::stopped::Stopped;
use crate::worked::fault::Fault;
use crate::worked::line::Line;
use crate::worked::play::play;
use crate::worked::run::{front, lines_of, points_of};
use sig_core::NoMemory;
use std::alloc::Global;
use std::io;
use std::sync::Wait;

/// The status where memory is wanting.
const NO_MEMORY: u8 = 5;

// Adds the title of a run to a text, with the point where it has points.
fn tell_title(
    alloc: Global,
    title: &str,
    point: Option<u32>,
    text: &mut Vec<u8>,
) -> Result<(), NoMemory> {
    let line = match point {
        Some(point) => format!(in alloc; "== {title}, point {point}\n")?,
        None => format!(in alloc; "== {title}\n")?,
    };
    text.extend_from_slice(line.as_bytes())?;
    Ok(())
}

/// What comes of a run, at each of its points.
fn told<W: Wait>(rt: &W, alloc: Global, title: &str, lines: &[Line]) -> Result<Vec<u8>, NoMemory> {
    let mut text = Vec::new(alloc);
    match points_of(lines) {
        None => {
            tell_title(alloc, title, None, &mut text)?;
            play(rt, alloc, lines, 0, &mut text)?;
        }
        Some(points) => {
            for point in 0..points {
                tell_title(alloc, title, Some(point), &mut text)?;
                play(rt, alloc, lines, point, &mut text)?;
            }
        }
    }
    Ok(text)
}

fn print_run<W: Wait>(
    rt: &HostRuntime,
    wait: &W,
    title: &str,
    lines: &[Line],
) -> Result<bool, Stopped> {
    let Ok(text) = told(wait, rt.alloc(), title, lines) else {
        return Ok(false);
    };
    let Ok(text) = String::from_utf8(text) else {
        return Err(Stopped::Text);
    };
    print!(rt; "{text}")?;
    Ok(true)
}

fn print_all<W: Wait>(rt: &HostRuntime, wait: &W, lines: &[Line]) -> Result<u8, Stopped> {
    for at in 0..lines.len() {
        if let Line::Run(title) = &lines[at] {
            if !print_run(rt, wait, title, front(&lines[at + 1..]))? {
                println!(rt; "out of memory")?;
                return Ok(NO_MEMORY);
            }
        }
    }
    Ok(0)
}

/// Makes the runs of standard input, and prints what comes of them. Gives the status.
///
/// # Errors
/// A call of the system that failed, or a text that isn't one.
pub fn try_all<W: Wait>(rt: &HostRuntime, wait: &W) -> Result<u8, Stopped> {
    let text = io::read_to_string(rt.alloc(), rt.reader())?;
    match lines_of(rt.alloc(), text.as_str()) {
        Ok(lines) => print_all(rt, wait, lines.as_slice()),
        Err(Fault::Line(line)) => {
            println!(rt; "line {line} is no line of a run")?;
            Ok(2)
        }
        Err(Fault::NoMemory) => {
            println!(rt; "out of memory")?;
            Ok(NO_MEMORY)
        }
    }
}
