//! Digests, in words.
ghost use Rattle.std.specs.Prelude.{◌≡◌, ◌++◌, OnOk};
ghost use Rattle.script_lang.specs.DigestText.{hex_digits, digest_words};

use crate::reply::words::add;
use sig_core::NoMemory;
use std::alloc::Global;

/// Adds the words of the digest of a node's rows to a line: two hexadecimal digits for each byte,
/// in lower case.
///
/// # Errors
/// `NoMemory`.
pub fn add_digest(
    alloc: Global,
    node: u8,
    digest: &[u8; 32],
    line: &mut Vec<u8>,
) -> Result<(), NoMemory>
    ensures { OnOk result (line.new.items ≡ line.old.items ++ digest_words node digest.now) }
{
    add(line, &format!(in alloc; "digest {node} ")?)?;
    add_hex(alloc, digest, line)
}

fn add_hex(alloc: Global, bytes: &[u8], line: &mut Vec<u8>) -> Result<(), NoMemory>
    ensures { OnOk result (line.new.items ≡ line.old.items ++ hex_digits bytes.now) }
{
    for byte in bytes {
        add(line, &format!(in alloc; "{byte:02x}")?)?;
    }
    Ok(())
}
