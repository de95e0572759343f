//! What is told of disks, and of lives on them.
use crate::worked::line::DiskByte;
use disk_world::DiskWorld;
use host_io::MemDisk;
use script_lang::print_reply;
use sig_core::{ApiReply, NoMemory, RestartFault, Shape};
use std::alloc::Global;

/// How many calls of a node's disk were made.
///
/// # Errors
/// `NoMemory`.
pub fn tell_calls(
    alloc: Global,
    disks: &[MemDisk],
    node: u8,
    text: &mut Vec<u8>,
) -> Result<(), NoMemory> {
    if let Some(disk) = disks.get(usize::from(node).wrapping_sub(1)) {
        let calls = disk.calls();
        text.extend_from_slice(format!(in alloc; "disk {node} calls {calls}\n")?.as_bytes())?;
    }
    Ok(())
}

/// The byte that stood where one was changed, if one did.
///
/// # Errors
/// `NoMemory`.
pub fn tell_flip(
    alloc: Global,
    before: Option<u8>,
    place: &DiskByte,
    text: &mut Vec<u8>,
) -> Result<(), NoMemory> {
    let DiskByte { node, file, at } = place;
    let line = match before {
        Some(byte) => format!(in alloc; "disk {node} file {file} at {at} had byte {byte}\n")?,
        None => format!(in alloc; "disk {node} file {file} at {at} had none\n")?,
    };
    text.extend_from_slice(line.as_bytes())?;
    Ok(())
}

/// The rows that a life began with, how many they are, and which life it is.
///
/// # Errors
/// `NoMemory`.
pub fn tell_life(
    alloc: Global,
    world: &DiskWorld<MemDisk>,
    text: &mut Vec<u8>,
) -> Result<(), NoMemory> {
    let rows = world.start_rows();
    for (key, value) in rows {
        let (key, value) = (*key, *value);
        print_reply(alloc, &ApiReply::Row { key, value }, text)?;
    }
    let (generation, count) = (world.generation(), rows.len());
    text.extend_from_slice(format!(in alloc; "life {generation} rows {count}\n")?.as_bytes())?;
    Ok(())
}

/// Why a life didn't begin, in the words of a session.
///
/// # Errors
/// `NoMemory`.
pub fn tell_fault(alloc: Global, fault: &RestartFault, text: &mut Vec<u8>) -> Result<(), NoMemory> {
    let line = match fault {
        RestartFault::DiskFault { node, .. } => format!(in alloc; "disk {node} fault\n")?,
        RestartFault::OtherShape { found, asked } => {
            let found = shape_words(alloc, found)?;
            let asked = shape_words(alloc, asked)?;
            format!(in alloc; "shape {found} not {asked}\n")?
        }
        RestartFault::Damaged {
            node,
            file,
            at,
            byte,
        } => format!(in alloc; "damaged node {node} file {file} at {at} byte {byte}\n")?,
        RestartFault::UsedUp { .. } => format!(in alloc; "numbers used up\n")?,
        RestartFault::NoMemory => format!(in alloc; "out of memory\n")?,
    };
    text.extend_from_slice(line.as_bytes())?;
    Ok(())
}

// The three numbers of a shape.
fn shape_words(alloc: Global, shape: &Shape) -> Result<String, NoMemory> {
    let Shape {
        nodes,
        replicas,
        fragments,
    } = shape;
    Ok(format!(in alloc; "{nodes} {replicas} {fragments}")?)
}
