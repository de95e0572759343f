//! Why reading stops.
ghost use Rattle.std.specs.Prelude.{◌≡◌};
ghost use Rattle.trace_read.specs.declared.stop.Stop.TheVariants as stop;

/// Why reading stops.
#[derive(Clone, Copy, Debug, PartialEq, Eq)]
pub enum Stop {
    /// A byte doesn't fit; so many bytes are left, it included. 0 where each fits and more would have to
    /// follow.
    Left(usize),
    /// Memory was wanted and not given.
    NoMemory,
}

impl From<usize> for Stop {
    ghost from_gives = { λ left e. e ≡ stop.Left left };

    fn from(left: usize) -> Stop {
        Stop::Left(left)
    }
}

impl From<sig_core::NoMemory> for Stop {
    ghost from_gives = { λ _ e. e ≡ stop.NoMemory };

    fn from(_refused: sig_core::NoMemory) -> Stop {
        Stop::NoMemory
    }
}
