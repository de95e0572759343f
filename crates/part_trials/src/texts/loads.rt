//! Waves of loads and whole loads, written out. What has to be printed was computed from the same rules by another
//! program.

mod spell;
mod wanted;

use load_gen::wave;
use md5::{Digest, Md5};
use script_lang::parse_line;
use sig_core::NoMemory;
use spell::{script_of_load, spell};
use std::alloc::Global;
pub use wanted::{Wanted, parse};

// The lines of a wave; whatever the cluster, each is one of a batch.
fn add_wave(alloc: Global, seed: u64, w: u32, n: u8, text: &mut Vec<u8>) -> Result<(), NoMemory> {
    let commands = wave(alloc, seed, w, n)?;
    for command in commands.as_slice() {
        let mut line = Vec::new(alloc);
        spell(alloc, &mut line, command)?;
        text.extend_from_slice(&line)?;
        let end = line.len().saturating_sub(1);
        if parse_line(&line[..end], true, 1).is_err() {
            text.extend_from_slice(b"no line of a batch\n")?;
        }
    }
    Ok(())
}

// How long the script of a load is, and its digest.
fn add_load(
    alloc: Global,
    transactions: u32,
    seed: u64,
    text: &mut Vec<u8>,
) -> Result<(), NoMemory> {
    let script = script_of_load(alloc, transactions, seed)?;
    let bytes = script.len();
    text.extend_from_slice(format!(in alloc; "{bytes} bytes ")?.as_bytes())?;
    for byte in Md5::digest(&script) {
        text.extend_from_slice(format!(in alloc; "{byte:02x}")?.as_bytes())?;
    }
    text.push(b'\n')?;
    Ok(())
}

/// Adds a line that asks for something, and what is printed of it.
///
/// # Errors
/// `NoMemory`.
pub fn add_told(
    alloc: Global,
    line: &str,
    wanted: Wanted,
    text: &mut Vec<u8>,
) -> Result<(), NoMemory> {
    text.extend_from_slice(line.as_bytes())?;
    text.push(b'\n')?;
    match wanted {
        Wanted::Wave { seed, w, n } => add_wave(alloc, seed, w, n, text),
        Wanted::Load { transactions, seed } => add_load(alloc, transactions, seed, text),
    }
}
