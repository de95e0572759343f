//! Where a key is led.
use sig_core::HashedKey;

/// A key, and the place that an index has of it, if it has one.
#[derive(Clone, Copy)]
pub struct Lead {
    pub key: HashedKey,
    pub at: Option<u64>,
}
