//! What comes of a console.
ghost use Rattle.std.specs.Prelude.{◌≤◌, IfOk, IfSome, length};

use crate::texts::fault::Fault;
use crate::texts::terminal::{Shown, Typed, show};
use crate::texts::trial::{Trial, Turn};
use console::{Board, Console, Noted, Numbers, Screen};
use host_io::{Failed, Sink, Source};
use std::alloc::Global;
use std::cell::RefCell;

/// For how many bytes there is room in a read: more than a line has.
const ROOM: usize = 1024;

/// Plays a console, and tells what its terminal shows, and which lines the session was given.
///
/// # Errors
/// Want of memory.
pub fn play(alloc: Global, trial: Trial, text: &mut Vec<u8>) -> Result<(), Fault> {
    let Numbers {
        nodes,
        replicas,
        fragments,
    } = trial.numbers;
    add(
        text,
        &format!(in alloc; "console {nodes} {replicas} {fragments}\n")?,
    )?;
    let screen = RefCell::new(Vec::new(alloc));
    let given = play_on(alloc, &trial, &screen)?;
    add_shown(text, &screen)?;
    for line in given.split_inclusive(|byte| *byte == b'\n') {
        add(text, "given ")?;
        text.extend_from_slice(line)?;
    }
    Ok(())
}

/// Adds words to the text.
fn add(text: &mut Vec<u8>, words: &str) -> Result<(), Fault> {
    Ok(text.extend_from_slice(words.as_bytes())?)
}

// What the terminal shows, with escape characters as they can be read.
fn add_shown(text: &mut Vec<u8>, screen: &RefCell<Vec<u8>>) -> Result<(), Fault> {
    if let Ok(shown) = screen.try_borrow() {
        for byte in shown.as_slice() {
            if *byte == 0x1b {
                add(text, "^[")?;
            } else {
                text.push(*byte)?;
            }
        }
    }
    Ok(())
}

/// Plays a console at a terminal, and says what the session was given.
fn play_on(alloc: Global, trial: &Trial, screen: &RefCell<Vec<u8>>) -> Result<Vec<u8>, Fault> {
    let board = RefCell::new(Board::new(alloc));
    let has_colours = trial.has_colours;
    let colours = if has_colours {
        Some(Shown::new(screen))
    } else {
        None
    };
    let numbers = trial.numbers;
    let notes = Screen::new(alloc, Shown::new(screen), &board, numbers, has_colours);
    let typed = Typed::new(&trial.typed, screen, trial.no_read);
    let mut console = Console::new(alloc, typed, notes, numbers.nodes);
    let mut noted = Noted::new(alloc, Shown::new(screen), colours, &board);
    let mut given = Vec::new(alloc);
    let mut turns = trial.turns.as_slice();
    for _ in 0..u64::MAX {
        match next_line(&mut console, &mut given)? {
            None => break,
            Some(from) => turns = answer(&mut noted, turns, &given[from..]),
        }
        if given.ends_with(b"quit\n") {
            break;
        }
    }
    if console.faults() > 0 {
        show(screen, b"reading failed\n");
    }
    Ok(given)
}

/// Takes the next line of a console behind those that were given before, and says where it begins. `None` where
/// there is none.
fn next_line<S: Source>(source: &mut S, given: &mut Vec<u8>) -> Result<Option<usize>, Fault>
    ensures { IfOk result (λ from. IfSome from (λ at. at ≤ length given.new.items)) }
{
    let from = given.len();
    let mut room = [0; ROOM];
    match source.read(&mut room) {
        Ok(count) if count > 0 => {
            given.extend_from_slice(&room[..count])?;
            Ok(Some(from))
        }
        Ok(_) | Err(Failed) => Ok(None),
    }
}

/// Prints what the session answers to a line, and says which turns are still to come.
fn answer<'t, K: Sink>(sink: &mut K, turns: &'t [Turn], given: &[u8]) -> &'t [Turn] {
    for (at, turn) in turns.iter().enumerate() {
        if is_line_of(turn, given) {
            print(sink, &turn.replies);
            return &turns[at + 1..];
        }
    }
    turns
}

// Whether the line that was given is the one of this turn.
fn is_line_of(turn: &Turn, given: &[u8]) -> bool {
    match given {
        [line @ .., b'\n'] => turn.line.as_slice() == line,
        _ => false,
    }
}

// Prints bytes; a terminal that can't be written to shows no more.
fn print<K: Sink>(sink: &mut K, bytes: &[u8]) {
    let mut rest = bytes;
    for _ in 0..u64::MAX {
        if rest.is_empty() {
            return;
        }
        match sink.write(rest) {
            Ok(count) => rest = &rest[count..],
            Err(Failed) => return,
        }
    }
}
