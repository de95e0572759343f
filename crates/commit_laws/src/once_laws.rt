//! How often takeovers are ordered and keys are driven.
ghost use Rattle.commit_laws.specs.Once.{KeysAreDrivenOnce};

/// In each view each key of a transaction is committed once at most, and completed once at most.
pub fn keys_are_driven_once()
    ensures { KeysAreDrivenOnce }
{}
