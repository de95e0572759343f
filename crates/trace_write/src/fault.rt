//! Why a life isn't written.
ghost use Rattle.std.specs.Prelude.{◌≡◌};
ghost use Rattle.trace_write.specs.declared.fault.WriteFault.TheVariants as fault;

/// Why a life isn't written.
#[derive(Clone, Copy, Debug, PartialEq, Eq)]
pub enum WriteFault {
    /// Its trace has more than `TRACE_BYTES` bytes.
    TooLong,
    /// A node was started with rows of its own, which traces can't tell.
    OwnRows,
    /// Memory was wanted and not given.
    NoMemory,
}

impl From<sig_core::NoMemory> for WriteFault {
    ghost from_gives = { λ _ e. e ≡ fault.NoMemory };

    fn from(_refused: sig_core::NoMemory) -> WriteFault {
        WriteFault::NoMemory
    }
}
