//! Loads as scripts.
use load_gen::{Asked, Load};
use script_lang::Command;
use sig_core::{NoMemory, Op};
use std::alloc::Global;

/// The most that is asked of a load: so many waves and checkpoints.
const MOST_ASKED: u32 = 10_000;

/// Puts the line of a command behind a script.
pub fn spell(alloc: Global, script: &mut Vec<u8>, command: &Command) -> Result<(), NoMemory> {
    match command {
        Command::Begin { name, node: None } => add(script, &format!(in alloc; "begin {name}")?),
        Command::Operate {
            name: Some(name),
            op,
        } => {
            script.extend_from_slice(format!(in alloc; "@{name} ")?.as_bytes())?;
            spell_operation(script, op)
        }
        _ => add(script, "another"),
    }
}

fn spell_operation(script: &mut Vec<u8>, op: &Op) -> Result<(), NoMemory> {
    match op {
        Op::Put(key, value) => {
            script.extend_from_slice(b"put ")?;
            script.extend_from_slice(key.bytes())?;
            script.extend_from_slice(b" ")?;
            script.extend_from_slice(value.bytes())?;
            add(script, "")
        }
        Op::Get(key) => {
            script.extend_from_slice(b"get ")?;
            script.extend_from_slice(key.bytes())?;
            add(script, "")
        }
        Op::Del(key) => {
            script.extend_from_slice(b"del ")?;
            script.extend_from_slice(key.bytes())?;
            add(script, "")
        }
        _ => add(script, "another"),
    }
}

fn add(script: &mut Vec<u8>, words: &str) -> Result<(), NoMemory> {
    script.extend_from_slice(words.as_bytes())?;
    script.push(b'\n')?;
    Ok(())
}

// Puts the lines of a wave behind a script.
fn add_wave(alloc: Global, script: &mut Vec<u8>, commands: &[Command]) -> Result<(), NoMemory> {
    add(script, "batch")?;
    for command in commands {
        spell(alloc, script, command)?;
    }
    add(script, "end")
}

// Puts what a load asks for next behind a script, and says whether there was something.
fn add_next(alloc: Global, load: &mut Load, script: &mut Vec<u8>) -> Result<bool, NoMemory> {
    match load.next(alloc)? {
        Some(Asked::Wave(commands)) => add_wave(alloc, script, commands.as_slice())?,
        Some(Asked::Checkpoint) => add(script, "gcp")?,
        None => return Ok(false),
    }
    Ok(true)
}

/// The script of a whole load.
///
/// # Errors
/// `NoMemory`.
pub fn script_of_load(alloc: Global, transactions: u32, seed: u64) -> Result<Vec<u8>, NoMemory> {
    let mut load = Load::new(transactions, seed);
    let mut script = Vec::new(alloc);
    for _ in 0..MOST_ASKED {
        if !add_next(alloc, &mut load, &mut script)? {
            break;
        }
    }
    Ok(script)
}
