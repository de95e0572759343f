//! What is wrong with a node's disk that lacks a slot.
ghost use Rattle.std.specs.Prelude.{◌≡◌, ◌≤◌, false, List, Some};
ghost use Rattle.host_io.specs.Call.{Call};
ghost use Rattle.redo_log.specs.Stored.{files_of};
ghost use Rattle.sys_restart.specs.Answers.{IsCauseOf, is_outside};
ghost use Rattle.sys_restart.specs.Lack.{lacking};

use host_io::{Disk, Failed};
use sig_core::RestartFault;

/// Damage at the first byte of the file of such slots; `DiskFault` where that can't be read.
pub(crate) fn lacking<D: Disk>(disk: &mut D, node: u8, file: u8) -> RestartFault
    ensures read { (calls : List Call) → D.told disk.old ≡ Some calls → is_outside result ≡ false → result ≡ lacking node file (files_of calls) }
    ensures unrecorded { D.told disk.new ≡ D.told disk.old }
    ensures cause { IsCauseOf node (D.faults disk.old) (D.faults disk.new) result }
    ensures steady { D.faults disk.old ≤ D.faults disk.new }
{
    let mut gate = [0];
    match disk.read(file, 0, &mut gate) {
        Ok(_) => RestartFault::Damaged {
            node,
            file,
            at: 0,
            byte: gate[0],
        },
        Err(Failed) => RestartFault::DiskFault {
            node,
            count: disk.faults(),
        },
    }
}
