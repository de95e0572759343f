//! The end of a load, in words.
ghost use Rattle.std.specs.Prelude.{◌≡◌, string_bytes, IfOk};
ghost use Rattle.script_lang.specs.LoadText.{load_words};

use sig_core::NoMemory;
use std::alloc::Global;

/// The words of how many transactions a load had, and how many of them were committed and aborted.
///
/// # Errors
/// `NoMemory`.
pub fn load_words(
    alloc: Global,
    transactions: u32,
    committed: u32,
    aborted: u32,
) -> Result<String, NoMemory>
    ensures { IfOk result (λ words. string_bytes words ≡ load_words transactions committed aborted) }
{
    Ok(format!(in alloc; "load {transactions} committed {committed} aborted {aborted}")?)
}
