//! Writing the bytes of a checkpoint.
ghost use Rattle.std.specs.Prelude.{◌≡◌, ◌++◌, ◌≤◌, take, length, None, Some, OnOk, OnErr};
ghost use Rattle.sig_core.specs.declared.value.TheConstants.{VALUE_BYTES};
ghost use Rattle.sig_core.specs.Checkpoint.{epoch_bytes, head_bytes, row_bytes, word_bytes};

use sig_core::{Key, NoMemory};

/// Appends what a checkpoint of version 2 begins with: the bytes 00 02.
///
/// # Errors
/// `NoMemory`, and then the bytes are as they were.
pub fn put_head(out: &mut Vec<u8>) -> Result<(), NoMemory>
    ensures ok { OnOk result (out.new.items ≡ out.old.items ++ head_bytes) }
    ensures err { OnErr result (out.new.items ≡ out.old.items) }
{
    out.extend_from_slice(&[0, 2])?;
    Ok(())
}

/// Appends a row of version 2: the key's length in one byte, the key, the row epoch in eight
/// bytes, the highest first, the value's length in one byte, the value, which has at most 200 bytes.
///
/// # Errors
/// `NoMemory`, and then the bytes are as they were.
pub fn put_row2(out: &mut Vec<u8>, key: &Key, epoch: u64, value: &[u8]) -> Result<(), NoMemory>
    requires { length value.now ≤ VALUE_BYTES }
    ensures ok { OnOk result (out.new.items ≡ out.old.items ++ row_bytes (record { key = key.now; epoch = Some epoch; value = value.now })) }
    ensures err { OnErr result (out.new.items ≡ out.old.items) }
{
    put(out, key, Some(epoch), value)
}

/// Appends a row of version 1, which has no row epoch, with a value of at most 200 bytes.
///
/// # Errors
/// `NoMemory`, and then the bytes are as they were.
pub fn put_row(out: &mut Vec<u8>, key: &Key, value: &[u8]) -> Result<(), NoMemory>
    requires { length value.now ≤ VALUE_BYTES }
    ensures ok { OnOk result (out.new.items ≡ out.old.items ++ row_bytes (record { key = key.now; epoch = None; value = value.now })) }
    ensures err { OnErr result (out.new.items ≡ out.old.items) }
{
    put(out, key, None, value)
}

// Appends a row, or nothing.
fn put(out: &mut Vec<u8>, key: &Key, epoch: Option<u64>, value: &[u8]) -> Result<(), NoMemory>
    requires { length value.now ≤ VALUE_BYTES }
    ensures ok { OnOk result (out.new.items ≡ out.old.items ++ row_bytes (record { key = key.now; epoch = epoch; value = value.now })) }
    ensures err { OnErr result (out.new.items ≡ out.old.items) }
{
    let before = out.len();
    match add_row(out, key, epoch, value) {
        Ok(()) => Ok(()),
        Err(refused) => {
            out.truncate(before);
            Err(refused)
        }
    }
}

// Appends a row, or some first bytes of it.
#[tactic(auto, using(crate::proofs::FrontLemmas::fronts))]
fn add_row(out: &mut Vec<u8>, key: &Key, epoch: Option<u64>, value: &[u8]) -> Result<(), NoMemory>
    requires { length value.now ≤ VALUE_BYTES }
    ensures ok { OnOk result (out.new.items ≡ out.old.items ++ row_bytes (record { key = key.now; epoch = epoch; value = value.now })) }
    ensures err { OnErr result (take (length out.old.items) out.new.items ≡ out.old.items) }
{
    add_word(out, key.bytes())?;
    add_epoch(out, epoch)?;
    add_word(out, value)
}

// Appends a row epoch, or nothing where there is none.
fn add_epoch(out: &mut Vec<u8>, epoch: Option<u64>) -> Result<(), NoMemory>
    ensures ok { OnOk result (out.new.items ≡ out.old.items ++ epoch_bytes epoch) }
    ensures err { OnErr result (out.new.items ≡ out.old.items) }
{
    if let Some(epoch) = epoch {
        out.extend_from_slice(&epoch.to_be_bytes())?;
    }
    Ok(())
}

// Appends a word of at most 255 bytes behind its length, or its length alone, or nothing.
fn add_word(out: &mut Vec<u8>, word: &[u8]) -> Result<(), NoMemory>
    requires { length word.now ≤ 255 }
    ensures ok { OnOk result (out.new.items ≡ out.old.items ++ word_bytes word.now) }
    ensures err { OnErr result (take (length out.old.items) out.new.items ≡ out.old.items) }
{
    out.push(word.len() as u8)?;
    out.extend_from_slice(word)?;
    Ok(())
}
