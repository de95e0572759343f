//! Whether rows and redo are of the group of the node on whose disk they are.
ghost use Rattle.std.specs.Prelude.{◌≡◌, ◌≤◌, ◌&&◌, List, Some, IfErr, IfOk, map};
ghost use Rattle.std.specs.List.{list_all};
ghost use Rattle.std.specs.Map.Iter.{deref_pair};
ghost use Rattle.frag_map.specs.Shape.{IsShape};
ghost use Rattle.host_io.specs.Call.{Call};
ghost use Rattle.redo_log.specs.Stored.{IsFault, files_of};
ghost use Rattle.sysfile_core.specs.Found.{HasRedo};
ghost use Rattle.sys_restart.specs.Held.{are_held, are_records_held, is_held, key_of, newest_in, records_of};

use frag_map::holds;
use host_io::Disk;
use redo_format::decode;
use redo_log::read_log;
use row_map::RowMap;
use sig_core::{ControlSlot, Key, NoMemory, ReadFault, Redo, Shape};
use std::alloc::Global;

/// Whether a node of a cluster holds the keys of all rows, and of the records of the redo that a control slot names, up
/// to the first byte that fits none. Where there is one group of nodes it does, and neither is looked at.
///
/// # Errors
/// `DiskFault`, `NoMemory`.
pub(crate) fn are_both_held<D: Disk>(
    alloc: Global,
    disk: &mut D,
    node: u8,
    slot: &ControlSlot,
    rows: &RowMap,
    shape: &Shape,
) -> Result<bool, ReadFault>
    requires shape { IsShape shape.now }
    requires first { 1 ≤ node }
    requires last { node ≤ shape.now.nodes }
    requires redo { HasRedo slot.now }
    ensures read { (calls : List Call) → D.told disk.old ≡ Some calls → IfOk result (λ held. held ≡ (are_held shape.now node rows.now && are_records_held shape.now node (records_of (files_of calls) slot.now))) }
    ensures unrecorded { D.told disk.new ≡ D.told disk.old }
    ensures fault { IfErr result (λ fault. IsFault (D.faults disk.old) (D.faults disk.new) fault) }
    ensures steady { D.faults disk.old ≤ D.faults disk.new }
{
    if shape.nodes == shape.replicas {
        return Ok(true);
    }
    match are_held(alloc, node, rows, shape) {
        Ok(true) => is_log_held(alloc, disk, node, slot, shape),
        Ok(false) => Ok(false),
        Err(NoMemory) => Err(ReadFault::NoMemory),
    }
}

// Whether a node holds the keys of all rows.
fn are_held(alloc: Global, node: u8, rows: &RowMap, shape: &Shape) -> Result<bool, NoMemory>
    requires { IsShape shape.now }
    ensures { IfOk result (λ held. held ≡ are_held shape.now node rows.now) }
{
    let rows = rows.lend_rows(alloc)?;
    Ok(all_held(node, &rows, shape))
}

// Whether a node holds the keys of all these rows.
fn all_held(node: u8, rows: &[(&Key, &[u8])], shape: &Shape) -> bool
    requires { IsShape shape.now }
    ensures { result ≡ list_all (is_held shape.now node) (map deref_pair rows.now) }
{
    for (key, _) in rows {
        if !holds(node, key, shape) {
            return false;
        }
    }
    true
}

// Whether a node holds the key of each record of the redo that a control slot names.
fn is_log_held<D: Disk>(
    alloc: Global,
    disk: &mut D,
    node: u8,
    slot: &ControlSlot,
    shape: &Shape,
) -> Result<bool, ReadFault>
    requires shape { IsShape shape.now }
    requires redo { HasRedo slot.now }
    ensures read { (calls : List Call) → D.told disk.old ≡ Some calls → IfOk result (λ held. held ≡ are_records_held shape.now node (records_of (files_of calls) slot.now)) }
    ensures unrecorded { D.told disk.new ≡ D.told disk.old }
    ensures fault { IfErr result (λ fault. IsFault (D.faults disk.old) (D.faults disk.new) fault) }
    ensures steady { D.faults disk.old ≤ D.faults disk.new }
{
    let bytes = read_log(alloc, disk, slot.parity, slot.redo_start, slot.redo_end)?;
    Ok(are_records_held(node, &bytes, shape))
}

// Whether a node holds the key of each record that the bytes begin with.
fn are_records_held(node: u8, bytes: &[u8], shape: &Shape) -> bool
    requires { IsShape shape.now }
    ensures { result ≡ are_records_held shape.now node (newest_in bytes.now) }
{
    let mut rest = bytes;
    'records: while !rest.is_empty() {
        match decode(rest) {
            Ok((redo, taken)) => {
                if !holds(node, key_of(&redo), shape) {
                    return false;
                }
                rest = &rest[taken..];
            }
            Err(_) => return true,
        }
    }
    true
}

// The key of a record.
fn key_of(redo: &Redo) -> &Key
    ensures { result.now ≡ key_of redo.now }
{
    match redo {
        Redo::Prepare { key, .. } | Redo::Commit { key, .. } | Redo::Abort { key, .. } => key,
    }
}
