//! All bytes of a source, as many as a trace may have.
ghost use Rattle.std.specs.Prelude.{◌≡◌, ◌≤◌, ◌<◌, ◌+◌, IfErr, IfOk, Err, length};
ghost use Rattle.host_io.specs.Fault.{Rose};
ghost use Rattle.shell_top.specs.declared.gathered.Ungathered.TheVariants as ungathered;
ghost use Rattle.shell_top.specs.Gathered.{IsGathered, IsUngathered};
ghost use Rattle.shell_top.specs.Reader.{HasMore, Reads};

use host_io::Source;
use std::alloc::Global;
use trace_write::TRACE_BYTES;

/// How many bytes a read gives at most.
const CHUNK: usize = 4_096;

/// Why the bytes of a source aren't all there.
#[derive(Clone, Copy, Debug, PartialEq, Eq)]
pub enum Ungathered {
    /// There are more than a trace may have: one more was read.
    TooLong,
    /// The source failed.
    Failed,
    NoMemory,
}

/// Reads a source to its end.
///
/// # Errors
/// As of `Ungathered`.
pub fn gather<S: Source>(alloc: Global, source: &mut S) -> Result<Vec<u8>, Ungathered>
    ensures ok { IfOk result (λ bytes. IsGathered (S.left source.old) (S.left source.new) bytes.items) }
    ensures err { IfErr result (IsUngathered (S.left source.old) (S.left source.new) (Rose (S.faults source.old) (S.faults source.new))) }
    ensures cause { result ≡ Err ungathered.Failed → Rose (S.faults source.old) (S.faults source.new) }
{
    let mut bytes = Vec::new(alloc);
    let mut chunk = empty_chunk(alloc)?;
    'reading: loop {
        let room = CHUNK.min(TRACE_BYTES + 1 - bytes.len());
        if !read_more(&mut bytes, &mut chunk[..room], source)? {
            return Ok(bytes);
        }
        if bytes.len() > TRACE_BYTES {
            return Err(Ungathered::TooLong);
        }
    }
}

/// Where a source puts what it gives.
///
/// # Errors
/// `NoMemory`.
fn empty_chunk(alloc: Global) -> Result<Vec<u8>, Ungathered>
    ensures ok { IfOk result (λ chunk. length chunk.items ≡ CHUNK) }
    ensures err { IfErr result (λ why. why ≡ ungathered.NoMemory) }
{
    match Vec::from_elem(alloc, 0, CHUNK) {
        Ok(chunk) => Ok(chunk),
        Err(_) => Err(Ungathered::NoMemory),
    }
}

/// Reads some bytes behind those that were read. Says whether there were any.
///
/// # Errors
/// `Failed` and `NoMemory`, and then no byte is gone.
fn read_more<S: Source>(
    bytes: &mut Vec<u8>,
    chunk: &mut [u8],
    source: &mut S,
) -> Result<bool, Ungathered>
    requires { 0 < length chunk.old }
    ensures reads { Reads (S.left source.old) (S.left source.new) bytes.old.items bytes.new.items }
    ensures more { IfOk result (HasMore (S.left source.new) bytes.old.items bytes.new.items) }
    ensures most { length bytes.new.items ≤ length bytes.old.items + length chunk.old }
    ensures kept { IfErr result (λ why. bytes.new.items ≡ bytes.old.items) }
    ensures which { IfErr result (λ why. why ≡ ungathered.TooLong → ⊥) }
    ensures cause { result ≡ Err ungathered.Failed → Rose (S.faults source.old) (S.faults source.new) }
    ensures steady { S.faults source.old ≤ S.faults source.new }
{
    if bytes.reserve(chunk.len()).is_err() {
        return Err(Ungathered::NoMemory);
    }
    let Ok(count) = source.read(chunk) else {
        return Err(Ungathered::Failed);
    };
    if bytes.extend_from_slice(&chunk[..count]).is_err() {
        return Err(Ungathered::NoMemory);
    }
    Ok(count > 0)
}
