//! Runs of printable bytes, of which keys and values are made.
ghost use Rattle.std.specs.Prelude.{◌≡◌, ◌≤◌, ◌∷◌, length, position, IfOk, None};
ghost use Rattle.sig_core.specs.IndexKey.{is_index};
ghost use Rattle.sig_core.specs.Word.{is_unprintable};
ghost use Rattle.redo_format.specs.Reading.{Gives, run_at};

use sig_core::{Key, SPACE, Value};

/// So many printable bytes, and the bytes behind them.
///
/// # Errors
/// How many bytes are left where the first stands that isn't printable; 0 where there are too few.
#[tactic(auto, unfolding(redo_format::specs::Reading::run_at))]
pub fn run_at(bytes: &[u8], len: usize) -> Result<(&[u8], &[u8]), usize>
    ensures read { Gives (λ x. (x.0.now, x.1.now)) result (run_at len bytes.now) }
    ensures len { IfOk result (λ x. length x.0.now ≡ len) }
    ensures printable { IfOk result (λ x. position is_unprintable x.0.now ≡ None) }
{
    if bytes.len() < len {
        return match first_unprintable(bytes) {
            Some(at) => Err(bytes.len() - at),
            None => Err(0),
        };
    }
    let (run, rest) = bytes.split_at(len);
    match first_unprintable(run) {
        Some(at) => Err(bytes.len() - at),
        None => Ok((run, rest)),
    }
}

// The place of the first byte that no word has.
fn first_unprintable(bytes: &[u8]) -> Option<usize>
    ensures { result ≡ position is_unprintable bytes.now }
{
    bytes.iter().position(|byte| *byte < 0x21 || 0x7e < *byte)
}

/// Whether the bytes begin with the one that keys of the index begin with.
pub fn begins_with_space(bytes: &[u8]) -> bool
    ensures { result ≡ is_index bytes.now }
{
    match bytes {
        [] => false,
        [first, ..] => *first == SPACE,
    }
}

/// The key of a run.
pub fn key_of(run: &[u8]) -> Key
    requires least { 1 ≤ length run.now }
    requires most { length run.now ≤ 32 }
    requires printable { position is_unprintable run.now ≡ None }
    ensures { result ≡ run.now }
{
    match Key::new(run) {
        Ok(key) => key,
        Err(_) => unreachable!(),
    }
}

/// The key of the index of the value that a run is.
pub fn index_key_of(run: &[u8]) -> Key
    requires least { 1 ≤ length run.now }
    requires most { length run.now ≤ 31 }
    requires printable { position is_unprintable run.now ≡ None }
    ensures { result ≡ SPACE ∷ run.now }
{
    match Key::index(&value_of(run)) {
        Some(key) => key,
        None => unreachable!(),
    }
}

/// The value of a run.
pub fn value_of(run: &[u8]) -> Value
    requires most { length run.now ≤ 200 }
    requires printable { position is_unprintable run.now ≡ None }
    ensures { result ≡ run.now }
{
    match Value::new(run) {
        Ok(value) => value,
        Err(_) => unreachable!(),
    }
}
