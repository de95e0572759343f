//! Why bytes aren't read.

/// Why bytes aren't read as a trace.
#[derive(Clone, Copy, Debug, PartialEq, Eq)]
pub enum TraceFault {
    /// They are none. `at` is the place of the first byte that fits none, or their number where each fits and
    /// more would have to follow.
    NotTrace { at: usize },
    /// Memory was wanted and not given.
    NoMemory,
}
