//! Disks that are put aside while a cluster uses those in front of them.
ghost use Rattle.std.specs.Prelude.{◌≡◌, ◌≤◌, ◌+◌, ◌++◌, [], IfOk, OnErr, OnOk, drop, length, take};
ghost use Rattle.std.specs.Vec.{vec_capacity};

use host_io::Disk;
use sig_core::NoMemory;
use std::alloc::Global;

/// Disks that a cluster doesn't use, and room for all.
#[derive(Drop)]
pub struct Aside<D: Disk> {
    unused: Vec<D>,
    room: Vec<D>,
}

/// Puts all but the first so many disks aside.
///
/// # Errors
/// `NoMemory`.
pub fn put_aside<D: Disk>(
    alloc: Global,
    disks: &mut Vec<D>,
    used: usize,
) -> Result<Aside<D>, NoMemory>
    requires { used ≤ length disks.old.items }
    ensures used { OnOk result (disks.new.items ≡ take used disks.old.items) }
    ensures unused { IfOk result (λ aside. aside.unused.items ≡ drop used disks.old.items) }
    ensures empty { IfOk result (λ aside. aside.room.items ≡ []) }
    ensures room { IfOk result (λ aside. length disks.old.items ≤ vec_capacity aside.room) }
    ensures same { OnErr result (disks.new.items ≡ disks.old.items) }
{
    let room = Vec::with_capacity(alloc, disks.len())?;
    let unused = disks.split_off(used)?;
    Ok(Aside { unused, room })
}

/// All disks, with those that were put aside behind those that were used. Takes no memory.
pub fn put_back<D: Disk>(used: Vec<D>, aside: Aside<D>) -> Vec<D>
    requires empty { aside.room.items ≡ [] }
    requires room { length used.items + length aside.unused.items ≤ vec_capacity aside.room }
    ensures { result.items ≡ used.items ++ aside.unused.items }
{
    let Aside { unused, room } = aside;
    let mut all = room;
    for disk in used {
        all.push_reserved(disk);
    }
    for disk in unused {
        all.push_reserved(disk);
    }
    all
}
