//! Restarts of two nodes that are laid out by hand, under stops, failing calls and flipped bits, each held
//! against the rows that it has to give. Of each it is printed how many there were: stops, calls that failed, forms of
//! disks, bits that were named, and lives in folders.
mod bits;
mod fails;
mod flipped;
mod folders;
mod forms;
mod groups;
mod layout;
mod long_rows;
mod lost;
mod numbers;
mod own;
mod pair;
mod picks;
mod places;
mod records;
mod restart;
mod ring;
mod rows;
mod shapes;
mod slots;
mod stops;
mod trouble;
mod version1;
mod versions;

use crate::stopped::Stopped;
use std::alloc::Global;
use trouble::Trouble;

// What a word asks for, if it is one of these.
fn asked_of(rt: &HostRuntime, word: &str) -> Option<Result<u64, Trouble>> {
    match word {
        "folders" => Some(folders::live(rt)),
        "full" => Some(folders::live_until_full(rt)),
        _ => try_in_memory(rt.alloc(), word),
    }
}

fn try_in_memory(alloc: Global, word: &str) -> Option<Result<u64, Trouble>> {
    match word {
        "stops" => Some(stops::stop_everywhere(alloc, false)),
        "long" => Some(stops::stop_everywhere(alloc, true)),
        "fails" => Some(fails::fail_everywhere(alloc)),
        "want" => Some(fails::want_once(alloc)),
        "forms" => Some(forms::try_all(alloc)),
        "version1" => Some(version1::flip_all(alloc)),
        _ => try_bit(alloc, word),
    }
}

fn try_bit(alloc: Global, word: &str) -> Option<Result<u64, Trouble>> {
    match word.as_bytes() {
        [b'b', b'i', b't', digit @ b'0'..=b'7'] => Some(bits::flip_all(
            alloc,
            1 << (*digit - b'0'),
        )),
        _ => None,
    }
}

/// Tries what a word asks for, and prints how it went; none where it isn't one of these.
///
/// # Errors
/// A line that isn't written.
pub fn try_one(rt: &HostRuntime, word: &str) -> Result<Option<bool>, Stopped> {
    match asked_of(rt, word) {
        Some(Ok(count)) => {
            println!(rt; "{word}: {count}")?;
            Ok(Some(true))
        }
        Some(Err(trouble)) => {
            println!(rt; "{word}: {trouble:?}")?;
            Ok(Some(false))
        }
        None => Ok(None),
    }
}
