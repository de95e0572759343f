//! Writing all of some bytes.
use host_io::{Failed, Sink};

/// Writes all of the bytes.
///
/// # Errors
/// `Failed`, and then a first part of them may be written.
pub fn write_whole<K: Sink>(sink: &mut K, bytes: &[u8]) -> Result<(), Failed> {
    let mut rest = bytes;
    for _ in 0..u64::MAX {
        if rest.is_empty() {
            return Ok(());
        }
        let count = sink.write(rest)?;
        rest = &rest[count..];
    }
    Err(Failed)
}
