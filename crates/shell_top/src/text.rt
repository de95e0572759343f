//! The text of faults.
ghost use Rattle.std.specs.Prelude.{◌≡◌, ℕ, true, IfOk, string_bytes};
ghost use Rattle.shell_top.specs.declared.ended.Ending.TheVariants.{Damaged, DiskFault, OtherShape, Refused, TooLong};
ghost use Rattle.shell_top.specs.Chapters.{is_refusal};
ghost use Rattle.shell_top.specs.Text.{fault_line, shape_words, status_after, status_of};

use crate::ended::Ending;
use crate::stopped::have_wanted;
use script_lang::LineFault;
use sig_core::{Life, NoMemory, Shape};
use std::alloc::Global;

/// The line that is printed last where a session ends so, or nothing.
///
/// # Errors
/// `NoMemory`.
pub fn fault_line(alloc: Global, ending: &Ending) -> Result<String, NoMemory>
    ensures { IfOk result (λ line. string_bytes line ≡ fault_line ending.now) }
{
    match ending {
        Ending::Finished | Ending::WriteFault | Ending::NoMemory => Ok(String::new(alloc)),
        Ending::Words => Ok(String::from_str(alloc, "words refused\n")?),
        Ending::Refused { line, fault } => refused_line(alloc, *line, *fault),
        Ending::ReadFault => Ok(String::from_str(alloc, "read fault\n")?),
        Ending::TooLong { line } => too_long_line(alloc, *line),
        opening => opening_line(alloc, opening),
    }
}

fn refused_line(alloc: Global, line: u32, fault: LineFault) -> Result<String, NoMemory>
    ensures { IfOk result (λ text. string_bytes text ≡ fault_line (Refused line fault)) }
{
    let code = fault.code();
    Ok(format!(in alloc; "line {line} refused {code}\n")?)
}

fn too_long_line(alloc: Global, line: u32) -> Result<String, NoMemory>
    ensures { IfOk result (λ text. string_bytes text ≡ fault_line (TooLong line)) }
{
    Ok(format!(in alloc; "line {line} too long\n")?)
}

/// The line of a session that ended since a life didn't begin for what its disks are.
fn opening_line(alloc: Global, ending: &Ending) -> Result<String, NoMemory>
    requires { is_refusal ending.now ≡ true }
    ensures { IfOk result (λ line. string_bytes line ≡ fault_line ending.now) }
{
    match ending {
        Ending::DiskFault { node, count: _ } => disk_line(alloc, *node),
        Ending::OtherShape { found, asked } => shape_line(alloc, found, asked),
        Ending::Damaged {
            node,
            file,
            at,
            byte,
        } => damaged_line(alloc, *node, *file, *at, *byte),
        Ending::UsedUp {
            generation: _,
            epoch: _,
        } => Ok(String::from_str(alloc, "numbers used up\n")?),
        _ => Ok(String::new(alloc)),
    }
}

fn disk_line(alloc: Global, node: u8) -> Result<String, NoMemory>
    ensures { (count : ℕ) → IfOk result (λ line. string_bytes line ≡ fault_line (DiskFault node count)) }
{
    Ok(format!(in alloc; "disk {node} fault\n")?)
}

fn damaged_line(alloc: Global, node: u8, file: u8, at: u64, byte: u8) -> Result<String, NoMemory>
    ensures { IfOk result (λ line. string_bytes line ≡ fault_line (Damaged node file at byte)) }
{
    Ok(format!(in alloc; "damaged node {node} file {file} at {at} byte {byte}\n")?)
}

fn shape_line(alloc: Global, found: &Shape, asked: &Shape) -> Result<String, NoMemory>
    ensures { IfOk result (λ line. string_bytes line ≡ fault_line (OtherShape found.now asked.now)) }
{
    let found = shape_words(alloc, found)?;
    let asked = shape_words(alloc, asked)?;
    Ok(format!(in alloc; "shape {found} not {asked}\n")?)
}

/// The three numbers of a shape.
fn shape_words(alloc: Global, shape: &Shape) -> Result<String, NoMemory>
    ensures { IfOk result (λ text. string_bytes text ≡ shape_words shape.now) }
{
    let nodes = shape.nodes;
    let replicas = shape.replicas;
    let fragments = shape.fragments;
    Ok(format!(in alloc; "{nodes} {replicas} {fragments}")?)
}

/// The exit status of a session that ends so, with these lives. One that is finished tells of want
/// of memory where a host stopped for that.
pub fn status_after(ending: &Ending, lives: &[Life]) -> u8
    ensures { result ≡ status_after ending.now lives.now }
{
    match ending {
        Ending::Finished if have_wanted(lives) => status_of(&Ending::NoMemory),
        _ => status_of(ending),
    }
}

/// The exit status of an ending.
pub fn status_of(ending: &Ending) -> u8
    ensures { result ≡ status_of ending.now }
{
    match ending {
        Ending::Finished => 0,
        Ending::Words => 1,
        Ending::Refused { line: _, fault: _ } => 2,
        Ending::ReadFault => 3,
        Ending::WriteFault => 4,
        Ending::NoMemory => 5,
        Ending::DiskFault { node: _, count: _ } => 6,
        Ending::OtherShape { found: _, asked: _ } => 7,
        Ending::Damaged { .. } => 8,
        Ending::TooLong { line: _ } => 9,
        Ending::UsedUp {
            generation: _,
            epoch: _,
        } => 10,
    }
}
