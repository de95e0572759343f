//! What holds of a node's disk while it saves, and behind it.
ghost use Rattle.node_disk.specs.Laws.{AControlSlotStays, ANamingSlotStays, AReadyDiskHasSlots, ASystemSlotStays};
ghost use Rattle.node_disk.specs.Laws.{CheckpointsLeaveFiles, RowsLeaveFiles, SlotsAreInUse, SystemLeavesFiles};
ghost use Rattle.node_disk.specs.RedoLaws.{RedoIsSyncedFirst};

/// A disk that is made ready for a life has slots of it, of which the system slot names it.
pub fn a_ready_disk_has_slots()
    ensures { AReadyDiskHasSlots }
{}

/// The slots with which a life begins, on a disk of which nothing is dirty, are in use.
pub fn slots_are_in_use()
    ensures { SlotsAreInUse }
{}

/// A save of rows leaves each file but the control file and those of the redo of its parity.
pub fn saves_of_rows_leave_files()
    ensures { RowsLeaveFiles }
{}

/// A save of the system slot leaves each file but that of system slots.
pub fn saves_of_the_system_leave_files()
    ensures { SystemLeavesFiles }
{}

/// Each byte of the redo that a save writes stands at its place, synced, before the first call on the
/// control slot; and so do those of before, as far as the ring has them.
pub fn redo_is_synced_first()
    ensures { RedoIsSyncedFirst }
{}

/// Whatever a crash leaves at any moment of a save of rows, the control slot in use is the old or the
/// new one; behind it the new one is.
pub fn a_control_slot_stays()
    ensures { AControlSlotStays }
{}

/// Whatever a crash leaves at any moment of a save of the system slot, the one in use is the old or the
/// new one; behind it the new one is.
pub fn a_system_slot_stays()
    ensures { ASystemSlotStays }
{}

/// Whatever a call of a local checkpoint on its way comes to, each file stays but that of checkpoints which
/// isn't in use; and where it is brought into use, each but the control file.
#[tactic(auto, using(crate::proofs::LawLemmas::checkpoints_leave))]
pub fn checkpoints_leave_files()
    ensures { CheckpointsLeaveFiles }
{}

/// Whatever a crash leaves at any moment where a checkpoint is brought into use, the control slot in use is
/// the old or the new one; behind it the new one is.
pub fn a_naming_slot_stays()
    ensures { ANamingSlotStays }
{}
