//! Why bytes were not read as a record.

/// Why bytes were not read as a record.
#[derive(Clone, Copy, Debug, PartialEq, Eq)]
pub enum FormatFault {
    /// No record stands at the front of the bytes. `at` is the place of the first byte that fits
    /// none, or their length where each fits and more would have to follow.
    NotRecord { at: usize },
}
