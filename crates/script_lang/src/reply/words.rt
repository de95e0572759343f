//! What each kind of line adds.
ghost use Rattle.std.specs.Prelude.{◌≡◌, ◌++◌, OnOk};

use sig_core::NoMemory;

/// Adds these words to a line.
///
/// # Errors
/// `NoMemory`.
pub fn add(line: &mut Vec<u8>, words: &str) -> Result<(), NoMemory>
    ensures { OnOk result (line.new.items ≡ line.old.items ++ words.now) }
{
    line.extend_from_slice(words.as_bytes())?;
    Ok(())
}
