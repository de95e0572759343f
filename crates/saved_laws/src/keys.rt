//! What a member doesn't commit, doesn't log, and doesn't save.
ghost use Rattle.saved_laws.specs.Keys.{OtherKeysAreUnlogged, OtherKeysStay, SavedAreBelowLast};

/// A member commits nothing of keys that its node doesn't hold.
pub fn other_keys_stay()
    ensures { OtherKeysStay }
{}

/// A member's journal has no record of a key that its node doesn't hold.
pub fn other_keys_are_unlogged()
    ensures { OtherKeysAreUnlogged }
{}

/// Behind an epoch that was noted as saved there is another number.
pub fn saved_are_below_the_last()
    ensures { SavedAreBelowLast }
{}
