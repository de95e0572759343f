//! The keys and values of a load.
ghost use Rattle.std.specs.Prelude.{◌≡◌, ◌≤◌, length, position, None, IfOk};
ghost use Rattle.sig_core.specs.Word.{is_unprintable};
ghost use Rattle.load_gen.specs.Wave.{row_key, row_value};

use sig_core::{Key, NoMemory, Value};
use std::alloc::Global;

/// The key of the row that a draw picks, of the 1024 of a transaction.
///
/// # Errors
/// `NoMemory`.
pub fn row_key(alloc: Global, transaction: u8, draw: u64) -> Result<Key, NoMemory>
    ensures { IfOk result (λ key. key ≡ row_key transaction draw) }
{
    let row = draw % 1024;
    let text = format!(in alloc; "t{transaction}.{row}")?;
    Ok(key_of(text.as_bytes()))
}

/// The value that a draw picks, below a billion.
///
/// # Errors
/// `NoMemory`.
#[tactic(auto, using(crate::proofs::Texts::value_plain))]
pub fn row_value(alloc: Global, draw: u64) -> Result<Value, NoMemory>
    ensures { IfOk result (λ value. value ≡ row_value draw) }
{
    let number = draw % 1_000_000_000;
    let text = format!(in alloc; "{number}")?;
    Ok(value_of(text.as_bytes()))
}

fn key_of(word: &[u8]) -> Key
    requires least { 1 ≤ length word.now }
    requires most { length word.now ≤ 32 }
    requires printable { position is_unprintable word.now ≡ None }
    ensures { result ≡ word.now }
{
    match Key::new(word) {
        Ok(key) => key,
        Err(_) => unreachable!(),
    }
}

fn value_of(word: &[u8]) -> Value
    requires most { length word.now ≤ 200 }
    requires printable { position is_unprintable word.now ≡ None }
    ensures { result ≡ word.now }
{
    match Value::new(word) {
        Ok(value) => value,
        Err(_) => unreachable!(),
    }
}
