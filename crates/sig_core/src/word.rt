//! Words: the short texts of which keys and values are made.
ghost use Rattle.std.specs.Prelude.{◌≡◌, ◌≤◌, ◌<◌, ◌++◌, length, drop, not, position, true, None, IfSome};
ghost use Rattle.sig_core.specs.Word.{if_word, is_unprintable};

/// Why some bytes are not a word of the asked kind.
#[derive(Clone, Copy, Debug, PartialEq, Eq)]
pub enum WordFault {
    /// There are `len` bytes, which is outside the kind's range.
    Length { len: usize },
    /// The byte at place `at`, the first of its kind, is not one of 0x21 to 0x7e.
    BadByte { at: usize },
}

/// Says whether the bytes are a word of at least `least` and at most `most` bytes.
pub fn check(bytes: &[u8], least: usize, most: usize) -> Result<(), WordFault>
    ensures { result ≡ if_word least most bytes.now tt }
{
    if bytes.len() < least || most < bytes.len() {
        return Err(WordFault::Length { len: bytes.len() });
    }
    match first_unprintable(bytes) {
        Some(at) => Err(WordFault::BadByte { at }),
        None => Ok(()),
    }
}

/// The place of the first byte that no word has.
pub fn first_unprintable(bytes: &[u8]) -> Option<usize>
    ensures told { result ≡ position is_unprintable bytes.now }
    ensures within { IfSome result (λ at. at < length bytes.now) }
{
    // Nearly all words are good, which is found out faster than a place.
    if are_printable(bytes) {
        return None;
    }
    bytes.iter().position(|b| !is_printable(*b))
}

// Whether words have all these bytes. It looks at each and has no branch for one, so that many are compared at once.
fn are_printable(bytes: &[u8]) -> bool
    ensures { result ≡ true → position is_unprintable bytes.now ≡ None }
{
    let mut good = true;
    for byte in bytes {
        good &= is_printable(*byte);
    }
    good
}

// Whether words have this byte.
fn is_printable(byte: u8) -> bool
    ensures { result ≡ not (is_unprintable byte) }
{
    0x20 < byte && byte < 0x7f
}

/// Puts the bytes at the front of an array.
pub fn put_front(array: &mut [u8], bytes: &[u8])
    requires { length bytes.now ≤ length array.old }
    ensures { array.new ≡ bytes.now ++ drop (length bytes.now) array.old }
{
    array[..bytes.len()].copy_from_slice(bytes);
}
