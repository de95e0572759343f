//! The rows of each group of nodes.
ghost use Rattle.std.specs.Prelude.{◌≡◌, ◌≤◌, ◌<◌, ◌+◌, ◌*◌, false, List, None, Ok, Some, IfOk, IfSome, length, map};
ghost use Rattle.frag_map.specs.Shape.{IsShape, groups};
ghost use Rattle.host_io.specs.Call.{Call};
ghost use Rattle.redo_log.specs.Stored.{files_of};
ghost use Rattle.sysfile_core.specs.declared.place.TheConstants.{CONTROL_FILE};
ghost use Rattle.sysfile_core.specs.Found.{HasRedo};
ghost use Rattle.sys_restart.specs.Answers.{AreSteady, HasCauseAmong, HasCauseOf, IsCauseAmong, ReadsAll, is_outside, on_node};
ghost use Rattle.sys_restart.specs.Files.{disks_of};
ghost use Rattle.sys_restart.specs.Groups.{also_on, control_on, current_on, first_listed, if_held, is_listed, joined, rows_among, rows_of_group, rows_of_groups, rows_on, that_saved};
ghost use Rattle.sys_restart.specs.Lack.{lacking};
ghost use Rattle.sys_restart.specs.SlotRows.{rows_of_slot};

use crate::held::are_both_held;
use crate::lack::lacking;
use crate::on_node::of_node;
use crate::outdated::is_outdated;
use crate::same::are_same;
use crate::slot_rows::rows_of_slot;
use host_io::{Disk, Failed};
use row_map::RowMap;
use sig_core::{ControlSlot, NoMemory, RestartFault, Seq, Shape, SystemSlot};
use std::alloc::Global;
use sysfile_core::{CONTROL_FILE, OWNER, SYSTEM_FILE, place_of, read_control, read_owner};

/// The rows of each group, the first group first: those of its nodes that the system slot lists and that have a
/// control slot of its generation that was saved at its epoch, up to the epoch of the system slot. All of them have to
/// have the same. What other nodes have isn't read.
///
/// # Errors
/// `Damaged` where a group has no such node, at its first node that is listed, or else at its first, at the first byte
/// of the control file; at such a node where its control file names another node, at the byte that does; at the first
/// byte of that file where it has rows or redo of another group, or other rows than such a node of its group before it;
/// where its control slots tell that a later epoch was durable, at the first byte of its system file, which has lost a
/// slot; and where a control slot, a checkpoint or redo is damaged. The first of them by group and node. `DiskFault`,
/// `NoMemory`.
pub(crate) fn rows_of_groups<D: Disk>(
    alloc: Global,
    disks: &mut [D],
    shape: Shape,
    system: &SystemSlot,
) -> Result<Seq<RowMap>, RestartFault>
    requires shape { IsShape shape }
    requires nodes { length disks.old ≡ shape.nodes }
    ensures read { (records : List (List Call)) → map D.told disks.old ≡ map Some records → ReadsAll (rows_of_groups shape (disks_of records) system.now) result }
    ensures unrecorded { map D.told disks.new ≡ map D.told disks.old }
    ensures cause { HasCauseAmong (map D.faults disks.old) (map D.faults disks.new) result }
    ensures steady { AreSteady (map D.faults disks.old) (map D.faults disks.new) }
{
    let mut rows = Seq::new(alloc);
    for group in 0..shape.nodes / shape.replicas {
        let first = first_of(group, &shape);
        match rows_of_group(alloc, disks, first, &shape, system) {
            Err(fault) => return Err(fault),
            Ok(part) => match rows.push(part) {
                Ok(()) => {}
                Err(NoMemory) => return Err(RestartFault::NoMemory),
            },
        }
    }
    Ok(rows)
}

// The first node of a group.
#[tactic(auto, using(crate::proofs::SeatLemmas::seats))]
fn first_of(group: u8, shape: &Shape) -> u8
    requires shape { IsShape shape.now }
    requires group { group < groups shape.now }
    ensures value { result ≡ group * shape.now.replicas + 1 }
    ensures last { result + shape.now.replicas ≤ shape.now.nodes + 1 }
{
    group * shape.replicas + 1
}

// The rows of the group whose first node this is.
fn rows_of_group<D: Disk>(
    alloc: Global,
    disks: &mut [D],
    first: u8,
    shape: &Shape,
    system: &SystemSlot,
) -> Result<RowMap, RestartFault>
    requires shape { IsShape shape.now }
    requires nodes { length disks.old ≡ shape.now.nodes }
    requires first { 1 ≤ first }
    requires last { first + shape.now.replicas ≤ shape.now.nodes + 1 }
    ensures read { (records : List (List Call)) → map D.told disks.old ≡ map Some records → ReadsAll (rows_of_group shape.now (disks_of records) system.now first) result }
    ensures unrecorded { map D.told disks.new ≡ map D.told disks.old }
    ensures cause { HasCauseAmong (map D.faults disks.old) (map D.faults disks.new) result }
    ensures steady { AreSteady (map D.faults disks.old) (map D.faults disks.new) }
{
    match rows_among(alloc, disks, first, shape, system) {
        Ok(Some(rows)) => Ok(rows),
        Ok(None) => {
            let node = first_listed(system.mask, first, shape.replicas);
            Err(lacking_at(disks, node))
        }
        Err(fault) => Err(fault),
    }
}

// The rows that the nodes of the group have that are listed and have a control slot of the generation and the epoch.
fn rows_among<D: Disk>(
    alloc: Global,
    disks: &mut [D],
    first: u8,
    shape: &Shape,
    system: &SystemSlot,
) -> Result<Option<RowMap>, RestartFault>
    requires shape { IsShape shape.now }
    requires nodes { length disks.old ≡ shape.now.nodes }
    requires first { 1 ≤ first }
    requires last { first + shape.now.replicas ≤ shape.now.nodes + 1 }
    ensures read { (records : List (List Call)) → map D.told disks.old ≡ map Some records → ReadsAll (rows_among shape.now (disks_of records) system.now first shape.now.replicas None) result }
    ensures unrecorded { map D.told disks.new ≡ map D.told disks.old }
    ensures cause { HasCauseAmong (map D.faults disks.old) (map D.faults disks.new) result }
    ensures steady { AreSteady (map D.faults disks.old) (map D.faults disks.new) }
{
    let mut found = None;
    for more in 0..shape.replicas {
        let node = first + more;
        let index = node as usize - 1;
        match also_on(alloc, &mut disks[index], node, shape, system, found) {
            Ok(rows) => found = rows,
            Err(fault) => return Err(fault),
        }
    }
    Ok(found)
}

// Rows that were found on disks of a group, if there were any, and those on the disk of one more node.
fn also_on<D: Disk>(
    alloc: Global,
    disk: &mut D,
    node: u8,
    shape: &Shape,
    system: &SystemSlot,
    found: Option<RowMap>,
) -> Result<Option<RowMap>, RestartFault>
    requires shape { IsShape shape.now }
    requires first { 1 ≤ node }
    requires last { node ≤ shape.now.nodes }
    ensures read { (calls : List Call) → D.told disk.old ≡ Some calls → ReadsAll (also_on shape.now system.now node (files_of calls) found (control_on system.now node (files_of calls))) result }
    ensures unrecorded { D.told disk.new ≡ D.told disk.old }
    ensures cause { HasCauseOf node (D.faults disk.old) (D.faults disk.new) result }
    ensures steady { D.faults disk.old ≤ D.faults disk.new }
{
    match control_on(disk, node, system) {
        Ok(None) => Ok(found),
        Ok(Some(slot)) => match rows_on(alloc, disk, node, &slot, shape, system) {
            Ok(rows) => joined(alloc, disk, node, found, rows),
            Err(fault) => Err(fault),
        },
        Err(fault) => Err(fault),
    }
}

// The same, of which that disk has these rows: they have to be those that were found.
fn joined<D: Disk>(
    alloc: Global,
    disk: &mut D,
    node: u8,
    found: Option<RowMap>,
    rows: RowMap,
) -> Result<Option<RowMap>, RestartFault>
    ensures read { (calls : List Call) → D.told disk.old ≡ Some calls → ReadsAll (joined node (files_of calls) found (Ok rows)) result }
    ensures unrecorded { D.told disk.new ≡ D.told disk.old }
    ensures cause { HasCauseOf node (D.faults disk.old) (D.faults disk.new) result }
    ensures steady { D.faults disk.old ≤ D.faults disk.new }
{
    let Some(one) = found else {
        return Ok(Some(rows));
    };
    match are_same(alloc, &one, &rows) {
        Ok(true) => Ok(Some(one)),
        Ok(false) => Err(lacking(disk, node, CONTROL_FILE)),
        Err(NoMemory) => Err(RestartFault::NoMemory),
    }
}

// The rows of a control slot on a node's disk: unless the control file names another node.
fn rows_on<D: Disk>(
    alloc: Global,
    disk: &mut D,
    node: u8,
    slot: &ControlSlot,
    shape: &Shape,
    system: &SystemSlot,
) -> Result<RowMap, RestartFault>
    requires shape { IsShape shape.now }
    requires first { 1 ≤ node }
    requires last { node ≤ shape.now.nodes }
    requires redo { HasRedo slot.now }
    ensures read { (calls : List Call) → D.told disk.old ≡ Some calls → ReadsAll (rows_on shape.now system.now node (files_of calls) slot.now) result }
    ensures unrecorded { D.told disk.new ≡ D.told disk.old }
    ensures cause { HasCauseOf node (D.faults disk.old) (D.faults disk.new) result }
    ensures steady { D.faults disk.old ≤ D.faults disk.new }
{
    match read_owner(disk) {
        Ok(Some(owner)) if owner != node => Err(RestartFault::Damaged {
            node,
            file: CONTROL_FILE,
            at: place_of(OWNER) + 1,
            byte: owner,
        }),
        Ok(_) => current_on(alloc, disk, node, slot, shape, system),
        Err(Failed) => Err(RestartFault::DiskFault {
            node,
            count: disk.faults(),
        }),
    }
}

// The same: unless the disk tells that the system slot isn't the last.
fn current_on<D: Disk>(
    alloc: Global,
    disk: &mut D,
    node: u8,
    slot: &ControlSlot,
    shape: &Shape,
    system: &SystemSlot,
) -> Result<RowMap, RestartFault>
    requires shape { IsShape shape.now }
    requires first { 1 ≤ node }
    requires last { node ≤ shape.now.nodes }
    requires redo { HasRedo slot.now }
    ensures read { (calls : List Call) → D.told disk.old ≡ Some calls → ReadsAll (current_on shape.now system.now node (files_of calls) slot.now) result }
    ensures unrecorded { D.told disk.new ≡ D.told disk.old }
    ensures cause { HasCauseOf node (D.faults disk.old) (D.faults disk.new) result }
    ensures steady { D.faults disk.old ≤ D.faults disk.new }
{
    match is_outdated(disk, system) {
        Ok(true) => Err(lacking(disk, node, SYSTEM_FILE)),
        Ok(false) => held_on(alloc, disk, node, slot, system.epoch, shape),
        Err(count) => Err(RestartFault::DiskFault { node, count }),
    }
}

// The rows that the slot names, if its node holds them and its redo.
fn held_on<D: Disk>(
    alloc: Global,
    disk: &mut D,
    node: u8,
    slot: &ControlSlot,
    epoch: u64,
    shape: &Shape,
) -> Result<RowMap, RestartFault>
    requires shape { IsShape shape.now }
    requires first { 1 ≤ node }
    requires last { node ≤ shape.now.nodes }
    requires redo { HasRedo slot.now }
    ensures read { (calls : List Call) → D.told disk.old ≡ Some calls → ReadsAll (if_held shape.now node (files_of calls) slot.now (on_node node (rows_of_slot epoch (files_of calls) slot.now))) result }
    ensures unrecorded { D.told disk.new ≡ D.told disk.old }
    ensures cause { HasCauseOf node (D.faults disk.old) (D.faults disk.new) result }
    ensures steady { D.faults disk.old ≤ D.faults disk.new }
{
    match rows_of_slot(alloc, disk, slot, epoch) {
        Ok(rows) => if_held(alloc, disk, node, slot, rows, shape),
        Err(fault) => Err(of_node(node, fault)),
    }
}

// Rows of a slot that were read on a node's disk, if the node holds them and the slot's redo.
fn if_held<D: Disk>(
    alloc: Global,
    disk: &mut D,
    node: u8,
    slot: &ControlSlot,
    rows: RowMap,
    shape: &Shape,
) -> Result<RowMap, RestartFault>
    requires shape { IsShape shape.now }
    requires first { 1 ≤ node }
    requires last { node ≤ shape.now.nodes }
    requires redo { HasRedo slot.now }
    ensures read { (calls : List Call) → D.told disk.old ≡ Some calls → ReadsAll (if_held shape.now node (files_of calls) slot.now (Ok rows)) result }
    ensures unrecorded { D.told disk.new ≡ D.told disk.old }
    ensures cause { HasCauseOf node (D.faults disk.old) (D.faults disk.new) result }
    ensures steady { D.faults disk.old ≤ D.faults disk.new }
{
    match are_both_held(alloc, disk, node, slot, &rows, shape) {
        Ok(true) => Ok(rows),
        Ok(false) => Err(lacking(disk, node, CONTROL_FILE)),
        Err(fault) => Err(of_node(node, fault)),
    }
}

// The control slot in use on a node's disk, if the node is listed and the slot was saved at the epoch.
fn control_on<D: Disk>(
    disk: &mut D,
    node: u8,
    system: &SystemSlot,
) -> Result<Option<ControlSlot>, RestartFault>
    requires first { 1 ≤ node }
    requires few { node ≤ 8 }
    ensures read { (calls : List Call) → D.told disk.old ≡ Some calls → ReadsAll (control_on system.now node (files_of calls)) result }
    ensures redo { IfOk result (λ slot. IfSome slot HasRedo) }
    ensures unrecorded { D.told disk.new ≡ D.told disk.old }
    ensures cause { HasCauseOf node (D.faults disk.old) (D.faults disk.new) result }
    ensures steady { D.faults disk.old ≤ D.faults disk.new }
{
    if !is_listed(system.mask, node) {
        return Ok(None);
    }
    match read_control(disk, system.generation) {
        Ok(slot) => Ok(that_saved(system.epoch, slot)),
        Err(fault) => Err(of_node(node, fault)),
    }
}

// A control slot that was saved at an epoch or behind it.
fn that_saved(epoch: u64, slot: Option<ControlSlot>) -> Option<ControlSlot>
    ensures value { result ≡ that_saved epoch slot }
    ensures redo { IfSome slot HasRedo → IfSome result HasRedo }
{
    match slot {
        Some(slot) if epoch <= slot.saved => Some(slot),
        _ => None,
    }
}

/// Whether a mask of full members lists a node.
pub(crate) fn is_listed(mask: u8, node: u8) -> bool
    requires first { 1 ≤ node }
    requires few { node ≤ 8 }
    ensures { result ≡ is_listed mask node }
{
    (mask >> (node - 1)) % 2 == 1
}

// The first of so many nodes that a mask lists, or else the first.
fn first_listed(mask: u8, first: u8, count: u8) -> u8
    requires first { 1 ≤ first }
    requires few { first + count ≤ 9 }
    requires some { 1 ≤ count }
    ensures value { result ≡ first_listed mask first first count }
    ensures least { first ≤ result }
    ensures most { result < first + count }
{
    for more in 0..count {
        if is_listed(mask, first + more) {
            return first + more;
        }
    }
    first
}

// What is wrong on the disk of a node that has no control slot, of the disks of all nodes.
fn lacking_at<D: Disk>(disks: &mut [D], node: u8) -> RestartFault
    requires first { 1 ≤ node }
    requires last { node ≤ length disks.old }
    ensures read { (records : List (List Call)) → map D.told disks.old ≡ map Some records → is_outside result ≡ false → result ≡ lacking node CONTROL_FILE (disks_of records node) }
    ensures unrecorded { map D.told disks.new ≡ map D.told disks.old }
    ensures cause { IsCauseAmong (map D.faults disks.old) (map D.faults disks.new) result }
    ensures steady { AreSteady (map D.faults disks.old) (map D.faults disks.new) }
{
    let index = node as usize - 1;
    lacking(&mut disks[index], node, CONTROL_FILE)
}
