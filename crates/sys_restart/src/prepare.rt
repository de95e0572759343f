//! What one node's disk is given for the next life: a checkpoint, and a control slot that names it.
ghost use Rattle.std.specs.Prelude.{◌≡◌, ◌≤◌, ◌<◌, ◌+◌, ◌-◌, ◌++◌, List, [], ◌∷◌, Some, false, is_ok, IfOk, OnErr, OnOk, length, map, min, take, drop};
ghost use Rattle.std.specs.FinMap as finmap;
ghost use Rattle.std.specs.List.{All, flat_map};
ghost use Rattle.std.specs.Map.Iter.{deref_pair};
ghost use Rattle.sig_core.specs.Checkpoint.{row_bytes};
ghost use Rattle.row_map.specs.Stored.{IsValue};
ghost use Rattle.frag_map.specs.Shape.{IsShape};
ghost use Rattle.host_io.specs.Call.{Call, Synced, Wrote};
ghost use Rattle.host_io.specs.Disk.{IsWritten};
ghost use Rattle.host_io.specs.Fault.{Rose};
ghost use Rattle.redo_log.specs.Stored.{files_of};
ghost use Rattle.sig_core.specs.declared.piece.TheConstants.{PIECE_BYTES};
ghost use Rattle.sysfile_core.specs.declared.place.TheConstants.{CLOSED, CONTROL_FILE};
ghost use Rattle.sysfile_core.specs.Places.{place_of};
ghost use Rattle.sysfile_core.specs.Runs.{Runs};
ghost use Rattle.sys_restart.specs.Answers.{HasCauseOf};
ghost use Rattle.sys_restart.specs.Calls.{RunsOrWants, checkpoint_for, control_calls, file_calls, is_used_up, next_file, next_parity, next_slot, node_calls, node_calls_at, own_calls, piece_calls, row_at, rows_of_node, write_calls};
ghost use Rattle.sys_restart.specs.LifeCalls.{IsUsedUp};
ghost use Rattle.sys_restart.specs.Places.{control_places};
ghost use Rattle.sys_restart.specs.Prepared.{HasPrepared, KeepsRestart, MayPrepare};

use crate::places::{Places, control_places};
use crate::restored::{Restored, numbers_fit};
use frag_map::group_of;
use host_io::{Disk, Failed};
use lcp_store::{checkpoints_are_read, put_head, put_row2};
use sig_core::{ControlSlot, Key, NoMemory, PIECE_BYTES, RestartFault, Shape};
use std::alloc::Global;
use sysfile_core::{
    CLOSED, CONTROL_BYTES, CONTROL_FILE, control_bytes, place_of, write_owner, write_slot,
};

/// Writes what a node begins the next life with, beside what is in use: a checkpoint of the rows of its
/// group, an empty log, and a control slot of the next generation. Then the control file tells whose it is.
///
/// # Errors
/// `NoMemory`, and then the disk is as it was; `DiskFault`: a call on the disk failed, and none was made
/// behind it.
pub fn prepare_node<D: Disk>(
    alloc: Global,
    disk: &mut D,
    node: u8,
    shape: Shape,
    restored: &Restored,
) -> Result<(), RestartFault>
    requires shape { IsShape shape }
    requires unused { is_used_up restored.now ≡ false }
    // Just these calls are made, up to the first that fails.
    ensures runs { (calls : List Call) → D.told disk.old ≡ Some calls → RunsOrWants (node_calls calls shape node restored.now) calls (D.told disk.new) result }
    // A stop at any moment leaves a restart as it was.
    ensures stands { (calls now : List Call) → D.told disk.old ≡ Some calls → D.told disk.new ≡ Some now → KeepsRestart shape node restored.now calls now }
    // In the end the disk is prepared.
    ensures prepared { (calls now : List Call) → D.told disk.old ≡ Some calls → D.told disk.new ≡ Some now → OnOk result (MayPrepare shape node restored.now calls → HasPrepared shape node restored.now now) }
    ensures unused { IsUsedUp result → ⊥ }
    ensures cause { HasCauseOf node (D.faults disk.old) (D.faults disk.new) result }
    ensures steady { D.faults disk.old ≤ D.faults disk.new }
{
    checkpoints_are_read();
    numbers_fit(restored);
    prepare_disk(alloc, disk, node, shape, restored)
}

// The same, of which the calls alone are told.
fn prepare_disk<D: Disk>(
    alloc: Global,
    disk: &mut D,
    node: u8,
    shape: Shape,
    restored: &Restored,
) -> Result<(), RestartFault>
    requires shape { IsShape shape }
    requires unused { is_used_up restored.now ≡ false }
    ensures runs { (calls : List Call) → D.told disk.old ≡ Some calls → RunsOrWants (node_calls calls shape node restored.now) calls (D.told disk.new) result }
    ensures unused { IsUsedUp result → ⊥ }
    ensures cause { HasCauseOf node (D.faults disk.old) (D.faults disk.new) result }
    ensures steady { D.faults disk.old ≤ D.faults disk.new }
{
    match control_places(disk, restored.generation) {
        Ok(places) => prepare_at(alloc, disk, node, &shape, restored, &places),
        Err(count) => Err(RestartFault::DiskFault { node, count }),
    }
}

// The same, at the place that isn't in use.
fn prepare_at<D: Disk>(
    alloc: Global,
    disk: &mut D,
    node: u8,
    shape: &Shape,
    restored: &Restored,
    places: &Places,
) -> Result<(), RestartFault>
    requires shape { IsShape shape.now }
    requires unused { is_used_up restored.now ≡ false }
    requires which { places.now.free ≤ 1 }
    ensures runs { (calls : List Call) → D.told disk.old ≡ Some calls → places.now ≡ control_places restored.now.generation (files_of calls CONTROL_FILE) → RunsOrWants (node_calls calls shape.now node restored.now) calls (D.told disk.new) result }
    ensures unused { IsUsedUp result → ⊥ }
    ensures cause { HasCauseOf node (D.faults disk.old) (D.faults disk.new) result }
    ensures steady { D.faults disk.old ≤ D.faults disk.new }
{
    match checkpoint_bytes(alloc, node, shape, restored) {
        Ok(bytes) => write_next(disk, node, restored, places, bytes.as_slice()),
        Err(NoMemory) => Err(RestartFault::NoMemory),
    }
}

// Writes a checkpoint of these bytes, and the control slot that names it.
fn write_next<D: Disk>(
    disk: &mut D,
    node: u8,
    restored: &Restored,
    places: &Places,
    bytes: &[u8],
) -> Result<(), RestartFault>
    requires unused { is_used_up restored.now ≡ false }
    requires which { places.now.free ≤ 1 }
    ensures runs { (calls : List Call) → D.told disk.old ≡ Some calls → RunsOrWants (node_calls_at node (files_of calls CONTROL_FILE) places.now restored.now bytes.now) calls (D.told disk.new) result }
    ensures unused { IsUsedUp result → ⊥ }
    ensures cause { HasCauseOf node (D.faults disk.old) (D.faults disk.new) result }
    ensures steady { D.faults disk.old ≤ D.faults disk.new }
{
    let slot = next_slot(restored, places, bytes.len() as u64);
    match write_node(disk, node, places.free, &slot, bytes) {
        Ok(()) => Ok(()),
        Err(Failed) => Err(RestartFault::DiskFault {
            node,
            count: disk.faults(),
        }),
    }
}

// The control slot that is the first of its generation.
fn next_slot(restored: &Restored, places: &Places, size: u64) -> ControlSlot
    requires { is_used_up restored.now ≡ false }
    ensures value { result ≡ next_slot restored.now places.now.in_use size }
    ensures file { 2 ≤ result.ckpt_file }
{
    ControlSlot {
        ckpt_file: next_file(&places.in_use),
        parity: next_parity(&places.in_use),
        generation: restored.generation + 1,
        serial: 1,
        saved: restored.epoch,
        redo_start: 0,
        redo_end: 0,
        ckpt_size: size,
    }
}

// The checkpoint file that isn't in use.
fn next_file(in_use: &Option<ControlSlot>) -> u8
    ensures value { result ≡ next_file in_use.now }
    ensures least { 2 ≤ result }
{
    match in_use {
        Some(slot) if slot.ckpt_file == 2 => 3,
        _ => 2,
    }
}

// The parity that isn't in use.
fn next_parity(in_use: &Option<ControlSlot>) -> u8
    ensures { result ≡ next_parity in_use.now }
{
    match in_use {
        Some(slot) if slot.parity == 0 => 1,
        _ => 0,
    }
}

// A checkpoint of the rows of a node's group, each as of the epoch.
#[tactic(auto, unfolding(crate::specs::Calls::checkpoint_for))]
fn checkpoint_bytes(
    alloc: Global,
    node: u8,
    shape: &Shape,
    restored: &Restored,
) -> Result<Vec<u8>, NoMemory>
    requires { IsShape shape.now }
    ensures { IfOk result (λ bytes. bytes.items ≡ checkpoint_for shape.now node restored.now) }
{
    let rows = rows_of_node(alloc, node, shape, restored)?;
    let mut bytes = Vec::with_capacity(alloc, room_for(&rows))?;
    put_head(&mut bytes)?;
    put_rows(&mut bytes, restored.epoch, &rows)?;
    Ok(bytes)
}

// How many bytes a checkpoint of these rows takes.
fn room_for(rows: &[(&Key, &[u8])]) -> usize {
    let mut room = 2usize;
    for (key, value) in rows {
        room = room.saturating_add(key.bytes().len() + value.len() + 10);
    }
    room
}

// The rows of a node's group, in byte order of their keys.
fn rows_of_node<'a>(
    alloc: Global,
    node: u8,
    shape: &Shape,
    restored: &'a Restored,
) -> Result<Vec<(&'a Key, &'a [u8])>, NoMemory>
    requires { IsShape shape.now }
    ensures rows { IfOk result (λ rows. map deref_pair rows.items ≡ finmap.entries (rows_of_node shape.now node restored.now)) }
    ensures values { IfOk result (λ rows. All (λ row. IsValue row.1.now) rows.items) }
{
    let group = group_of(node, shape) as usize;
    let groups = restored.groups.as_slice();
    if group < groups.len() {
        groups[group].lend_rows(alloc)
    } else {
        Ok(Vec::new(alloc))
    }
}

// Appends rows, each as of the epoch.
fn put_rows(bytes: &mut Vec<u8>, epoch: u64, rows: &[(&Key, &[u8])]) -> Result<(), NoMemory>
    requires { All (λ row. IsValue row.1.now) rows.now }
    ensures { OnOk result (bytes.new.items ≡ bytes.old.items ++ flat_map row_bytes (map (row_at epoch) (map deref_pair rows.now))) }
{
    for (key, value) in rows {
        put_row2(bytes, key, epoch, value)?;
    }
    Ok(())
}

// Writes the checkpoint, and the slot behind it, and makes the control file the node's own.
fn write_node<D: Disk>(
    disk: &mut D,
    node: u8,
    which: u8,
    slot: &ControlSlot,
    bytes: &[u8],
) -> Result<(), Failed>
    requires which { which ≤ 1 }
    requires file { 2 ≤ slot.now.ckpt_file }
    ensures runs { (calls : List Call) → D.told disk.old ≡ Some calls → Runs (write_calls node (files_of calls CONTROL_FILE) which slot.now bytes.now) calls (D.told disk.new) (is_ok result) }
    ensures cause { OnErr result (Rose (D.faults disk.old) (D.faults disk.new)) }
    ensures steady { D.faults disk.old ≤ D.faults disk.new }
{
    match write_file(disk, slot.ckpt_file, bytes) {
        Ok(()) => write_control(disk, node, which, slot),
        Err(Failed) => Err(Failed),
    }
}

// Writes the slot, and makes the control file the node's own.
fn write_control<D: Disk>(
    disk: &mut D,
    node: u8,
    which: u8,
    slot: &ControlSlot,
) -> Result<(), Failed>
    requires which { which ≤ 1 }
    ensures runs { (calls : List Call) → D.told disk.old ≡ Some calls → Runs (control_calls node (files_of calls CONTROL_FILE) which slot.now) calls (D.told disk.new) (is_ok result) }
    ensures cause { OnErr result (Rose (D.faults disk.old) (D.faults disk.new)) }
    ensures steady { D.faults disk.old ≤ D.faults disk.new }
{
    match write_slot(disk, CONTROL_FILE, which, &control_bytes(slot)) {
        Ok(()) => make_own(disk, node),
        Err(Failed) => Err(Failed),
    }
}

// Makes the control file the node's own.
fn make_own<D: Disk>(disk: &mut D, node: u8) -> Result<(), Failed>
    ensures runs { (calls : List Call) → D.told disk.old ≡ Some calls → Runs (own_calls node (length (files_of calls CONTROL_FILE)) (files_of calls CONTROL_FILE)) calls (D.told disk.new) (is_ok result) }
    ensures cause { OnErr result (Rose (D.faults disk.old) (D.faults disk.new)) }
    ensures steady { D.faults disk.old ≤ D.faults disk.new }
{
    match disk.size(CONTROL_FILE) {
        Ok(size) => make_own_of(disk, node, size),
        Err(Failed) => Err(Failed),
    }
}

// The same of a control file of this size: it doesn't grow over the second place of a slot while the gate there isn't
// closed.
fn make_own_of<D: Disk>(disk: &mut D, node: u8, size: u64) -> Result<(), Failed>
    ensures runs { (calls : List Call) → D.told disk.old ≡ Some calls → Runs (own_calls node size (files_of calls CONTROL_FILE)) calls (D.told disk.new) (is_ok result) }
    ensures cause { OnErr result (Rose (D.faults disk.old) (D.faults disk.new)) }
    ensures steady { D.faults disk.old ≤ D.faults disk.new }
{
    if size >= place_of(1) + CONTROL_BYTES as u64 {
        return write_owner(disk, node);
    }
    match close_second(disk) {
        Ok(()) => write_owner(disk, node),
        Err(Failed) => Err(Failed),
    }
}

// Closes the gate at the second place of a control slot.
fn close_second<D: Disk>(disk: &mut D) -> Result<(), Failed>
    ensures runs { (calls : List Call) → D.told disk.old ≡ Some calls → Runs (Wrote CONTROL_FILE (place_of 1) (CLOSED ∷ []) ∷ Synced CONTROL_FILE ∷ []) calls (D.told disk.new) (is_ok result) }
    ensures cause { OnErr result (Rose (D.faults disk.old) (D.faults disk.new)) }
    ensures steady { D.faults disk.old ≤ D.faults disk.new }
{
    match disk.write(CONTROL_FILE, place_of(1), &[CLOSED]) {
        Ok(()) => disk.sync(CONTROL_FILE),
        Err(Failed) => Err(Failed),
    }
}

// Writes bytes to a file, and syncs it.
fn write_file<D: Disk>(disk: &mut D, file: u8, bytes: &[u8]) -> Result<(), Failed>
    ensures runs { (calls : List Call) → D.told disk.old ≡ Some calls → Runs (file_calls file bytes.now) calls (D.told disk.new) (is_ok result) }
    ensures cause { OnErr result (Rose (D.faults disk.old) (D.faults disk.new)) }
    ensures steady { D.faults disk.old ≤ D.faults disk.new }
{
    match write_pieces(disk, file, bytes) {
        Ok(()) => disk.sync(file),
        Err(Failed) => Err(Failed),
    }
}

// Writes bytes from the first place of a file on, piece by piece.
fn write_pieces<D: Disk>(disk: &mut D, file: u8, bytes: &[u8]) -> Result<(), Failed>
    ensures runs { (calls : List Call) → D.told disk.old ≡ Some calls → Runs (piece_calls (length bytes.now) file 0 bytes.now) calls (D.told disk.new) (is_ok result) }
    ensures cause { OnErr result (Rose (D.faults disk.old) (D.faults disk.new)) }
    ensures steady { D.faults disk.old ≤ D.faults disk.new }
{
    let mut at = 0;
    'pieces: while at < bytes.len() {
        let len = piece_len(at, bytes.len());
        match write_piece(disk, file, at, len, bytes) {
            Ok(()) => at += len,
            Err(Failed) => return Err(Failed),
        }
    }
    Ok(())
}

// How many bytes are written at once: up to the last one, and a piece's.
fn piece_len(at: usize, size: usize) -> usize
    requires { at < size }
    ensures value { result ≡ min PIECE_BYTES (size - at) }
    ensures some { 1 ≤ result }
    ensures within { at + result ≤ size }
{
    PIECE_BYTES.min(size - at)
}

// Writes so many bytes to their place, from one on.
fn write_piece<D: Disk>(
    disk: &mut D,
    file: u8,
    at: usize,
    len: usize,
    bytes: &[u8],
) -> Result<(), Failed>
    requires { at + len ≤ length bytes.now }
    ensures written { (calls : List Call) → D.told disk.old ≡ Some calls → IsWritten calls (D.told disk.new) file at (take len (drop at bytes.now)) (is_ok result) }
    ensures cause { OnErr result (Rose (D.faults disk.old) (D.faults disk.new)) }
    ensures steady { D.faults disk.old ≤ D.faults disk.new }
{
    disk.write(file, at as u64, &bytes[at..at + len])
}
