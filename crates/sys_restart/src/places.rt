//! Which places of slots aren't in use. A damaged slot counts as one that is closed.
ghost use Rattle.std.specs.Prelude.{◌≡◌, ◌≤◌, List, Some, IfErr, IfOk};
ghost use Rattle.host_io.specs.Call.{Call};
ghost use Rattle.host_io.specs.Fault.{Rose};
ghost use Rattle.redo_log.specs.Stored.{files_of};
ghost use Rattle.sysfile_core.specs.declared.place.TheConstants.{CONTROL_FILE, SYSTEM_FILE};
ghost use Rattle.sysfile_core.specs.Reading.{control_at, of_generation, system_at};
ghost use Rattle.sys_restart.specs.Places.{control_places, free_of, free_system, places_of, usable, usable_or_count};

use host_io::Disk;
use sig_core::{ControlSlot, ReadFault, SystemSlot};
use sysfile_core::{control_at, is_earlier, of_generation, system_at};

/// The place at which the next control slot is written, and the slot that is in use.
#[derive(Clone, Copy)]
pub struct Places {
    /// 0 or 1.
    pub free: u8,
    pub in_use: Option<ControlSlot>,
}

/// Where the next system slot is written: at the place that isn't in use, or at place 0 where none is.
///
/// # Errors
/// A call on the disk failed; its count.
pub(crate) fn free_system<D: Disk>(disk: &mut D) -> Result<u8, u64>
    ensures read { (calls : List Call) → D.told disk.old ≡ Some calls → IfOk result (λ which. which ≡ free_system (files_of calls SYSTEM_FILE)) }
    ensures which { IfOk result (λ which. which ≤ 1) }
    ensures unrecorded { D.told disk.new ≡ D.told disk.old }
    ensures cause { IfErr result (λ count. Rose (D.faults disk.old) (D.faults disk.new) × (count ≡ D.faults disk.new)) }
    ensures steady { D.faults disk.old ≤ D.faults disk.new }
{
    match usable_system(disk, 0) {
        Ok(one) => free_beside(disk, one),
        Err(count) => Err(count),
    }
}

// The same, of which the slot at place 0 is this one.
fn free_beside<D: Disk>(disk: &mut D, one: Option<SystemSlot>) -> Result<u8, u64>
    ensures read { (calls : List Call) → D.told disk.old ≡ Some calls → IfOk result (λ which. which ≡ free_of one (usable (system_at 1 (files_of calls SYSTEM_FILE)))) }
    ensures which { IfOk result (λ which. which ≤ 1) }
    ensures unrecorded { D.told disk.new ≡ D.told disk.old }
    ensures cause { IfErr result (λ count. Rose (D.faults disk.old) (D.faults disk.new) × (count ≡ D.faults disk.new)) }
    ensures steady { D.faults disk.old ≤ D.faults disk.new }
{
    match usable_system(disk, 1) {
        Ok(other) => Ok(free_of(one, other)),
        Err(count) => Err(count),
    }
}

// The system slot at a place, if it is open and not damaged.
fn usable_system<D: Disk>(disk: &mut D, which: u8) -> Result<Option<SystemSlot>, u64>
    requires { which ≤ 1 }
    ensures read { (calls : List Call) → D.told disk.old ≡ Some calls → IfOk result (λ slot. slot ≡ usable (system_at which (files_of calls SYSTEM_FILE))) }
    ensures unrecorded { D.told disk.new ≡ D.told disk.old }
    ensures cause { IfErr result (λ count. Rose (D.faults disk.old) (D.faults disk.new) × (count ≡ D.faults disk.new)) }
    ensures steady { D.faults disk.old ≤ D.faults disk.new }
{
    usable(system_at(disk, which))
}

/// The place, 0 or 1, of two system slots that isn't that of the slot in use.
pub fn free_of(one: Option<SystemSlot>, other: Option<SystemSlot>) -> u8
    ensures value { result ≡ free_of one other }
    ensures which { result ≤ 1 }
{
    match (one, other) {
        (None, _) => 0,
        (Some(_), None) => 1,
        (Some(first), Some(second)) => { if is_earlier(&first, &second) { 0 } else { 1 } }
    }
}

/// Where the next control slot is written, and which one of this generation is in use.
///
/// # Errors
/// A call on the disk failed; its count.
pub(crate) fn control_places<D: Disk>(disk: &mut D, generation: u64) -> Result<Places, u64>
    ensures read { (calls : List Call) → D.told disk.old ≡ Some calls → IfOk result (λ places. places ≡ control_places generation (files_of calls CONTROL_FILE)) }
    ensures which { IfOk result (λ places. places.free ≤ 1) }
    ensures unrecorded { D.told disk.new ≡ D.told disk.old }
    ensures cause { IfErr result (λ count. Rose (D.faults disk.old) (D.faults disk.new) × (count ≡ D.faults disk.new)) }
    ensures steady { D.faults disk.old ≤ D.faults disk.new }
{
    match usable_control(disk, generation, 0) {
        Ok(one) => places_beside(disk, generation, one),
        Err(count) => Err(count),
    }
}

// The same, of which the slot of the generation at place 0 is this one.
fn places_beside<D: Disk>(
    disk: &mut D,
    generation: u64,
    one: Option<ControlSlot>,
) -> Result<Places, u64>
    ensures read { (calls : List Call) → D.told disk.old ≡ Some calls → IfOk result (λ places. places ≡ places_of one (of_generation generation (usable (control_at 1 (files_of calls CONTROL_FILE))))) }
    ensures which { IfOk result (λ places. places.free ≤ 1) }
    ensures unrecorded { D.told disk.new ≡ D.told disk.old }
    ensures cause { IfErr result (λ count. Rose (D.faults disk.old) (D.faults disk.new) × (count ≡ D.faults disk.new)) }
    ensures steady { D.faults disk.old ≤ D.faults disk.new }
{
    match usable_control(disk, generation, 1) {
        Ok(other) => Ok(places_of(one, other)),
        Err(count) => Err(count),
    }
}

/// The control slot of the generation at a place, if it is open and not damaged.
///
/// # Errors
/// A call on the disk failed; its count.
pub(crate) fn usable_control<D: Disk>(
    disk: &mut D,
    generation: u64,
    which: u8,
) -> Result<Option<ControlSlot>, u64>
    requires { which ≤ 1 }
    ensures read { (calls : List Call) → D.told disk.old ≡ Some calls → IfOk result (λ slot. slot ≡ of_generation generation (usable (control_at which (files_of calls CONTROL_FILE)))) }
    ensures unrecorded { D.told disk.new ≡ D.told disk.old }
    ensures cause { IfErr result (λ count. Rose (D.faults disk.old) (D.faults disk.new) × (count ≡ D.faults disk.new)) }
    ensures steady { D.faults disk.old ≤ D.faults disk.new }
{
    match usable(control_at(disk, which)) {
        Ok(slot) => Ok(of_generation(generation, slot)),
        Err(count) => Err(count),
    }
}

/// The places, of the two control slots of a generation.
pub fn places_of(one: Option<ControlSlot>, other: Option<ControlSlot>) -> Places
    ensures value { result ≡ places_of one other }
    ensures which { result.free ≤ 1 }
{
    match (one, other) {
        (None, in_use) => Places { free: 0, in_use },
        (Some(first), None) => Places {
            free: 1,
            in_use: Some(first),
        },
        (Some(first), Some(second)) => {
            if first.serial < second.serial {
                Places {
                    free: 0,
                    in_use: Some(second),
                }
            } else {
                Places {
                    free: 1,
                    in_use: Some(first),
                }
            }
        }
    }
}

/// A slot that was read; a damaged one counts as none.
///
/// # Errors
/// The disk failed; its count.
pub(crate) fn usable<S>(read: Result<Option<S>, ReadFault>) -> Result<Option<S>, u64>
    ensures { result ≡ usable_or_count read }
{
    match read {
        Ok(slot) => Ok(slot),
        Err(ReadFault::DiskFault { count }) => Err(count),
        Err(_) => Ok(None),
    }
}
