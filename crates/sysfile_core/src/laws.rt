//! What a crash may leave while a slot is written, and what its steps are.
ghost use Rattle.sysfile_core.specs.Laws.{OpenSlotIsWhole, OtherSlotIsKept, OtherSlotStays, WrittenSlotStays};
ghost use Rattle.sysfile_core.specs.SlotLaws.{ControlSlotsAreRead, SystemSlotsAreRead};
ghost use Rattle.sysfile_core.specs.Steps.{StepsAreTheCalls};

/// While a slot is written, another one that no crash could change stays in every image of every
/// moment.
pub fn the_other_slot_stays()
    ensures { OtherSlotStays }
{}

/// It stands so after the write too, as far as that went.
pub fn the_other_slot_is_kept()
    ensures { OtherSlotIsKept }
{}

/// While a slot is written, what is open at its place is whole in every image of every moment: it is
/// the new slot, or one that a crash might have left open before.
pub fn an_open_slot_is_whole()
    ensures { OpenSlotIsWhole }
{}

/// A slot that was written stands at its place, and no crash changes it.
pub fn a_written_slot_stays()
    ensures { WrittenSlotStays }
{}

/// The six steps of a slot's write are the calls that write it.
pub fn the_steps_are_the_calls()
    ensures { StepsAreTheCalls }
{}

/// The bytes of a system slot are read as that slot.
pub fn system_slots_are_read()
    ensures { SystemSlotsAreRead }
{}

/// The bytes of a control slot are read as that slot.
pub fn control_slots_are_read()
    ensures { ControlSlotsAreRead }
{}
