//! Rows, in words.
ghost use Rattle.std.specs.Prelude.{◌≡◌, ◌++◌, OnOk, codes};

use sig_core::NoMemory;

/// Adds the bytes of a key, a space and the bytes of a value to a line.
///
/// # Errors
/// `NoMemory`.
pub fn add_row(key: &[u8], value: &[u8], line: &mut Vec<u8>) -> Result<(), NoMemory>
    ensures { OnOk result (line.new.items ≡ line.old.items ++ (key.now ++ codes " " ++ value.now)) }
{
    line.extend_from_slice(key)?;
    line.extend_from_slice(b" ")?;
    line.extend_from_slice(value)?;
    Ok(())
}
