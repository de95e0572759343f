//! What may watch the hosts as they run.

/// Is called as hosts run, and can hold them up. Nothing that is promised depends on it.
pub trait Gate {
    /// Step 0 of a turn is its beginning, and step k the k-th signal that it takes.
    fn before(&self, host: u32, turn: u64, step: u64);
}

/// Holds nothing up.
#[derive(Clone, Copy, Debug)]
pub struct NoGate;

impl Gate for NoGate {
    fn before(&self, _host: u32, _turn: u64, _step: u64) {}
}
