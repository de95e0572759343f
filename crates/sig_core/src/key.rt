//! The primary key of a row.
ghost use Rattle.std.specs.Prelude.{◌≡◌, ◌≤◌, length, refl, Some};
ghost use Rattle.std.proofs.Common.{rules};
ghost use Rattle.std.specs.Ordering.{nat_cmp};
ghost use Rattle.std.specs.Hash as fed;
ghost use Rattle.std.specs.Cmp.{partial_equiv_from_equiv};
ghost use Rattle.std.specs.Cmp.Lexicographic.{pointwise, slice_cmp, nat_list_eq_equiv, nat_list_cmp_total, texts_ties};
ghost use Rattle.std.specs.Cmp.Lexicographic.{texts_po};
ghost use Rattle.std.specs.Prelude.{nat_eq};
ghost use Rattle.std.specs.Cmp.Rules.{hashing};
ghost use Rattle.sig_core.specs.IndexKey.{index_of, is_index};
ghost use Rattle.sig_core.specs.Word.{if_word};
ghost use Rattle.sig_core.specs.declared.key.TheConstants.{KEY_BYTES};

use crate::value::Value;
use crate::word::{WordFault, check, put_front};
use std::cmp::Ordering;
use std::fmt;
use std::hash::{Hash, Hasher};
use std::marker::Model;

/// The most bytes that a key has.
pub const KEY_BYTES: usize = 32;

/// The byte that a key of the index begins with. No word has it.
pub const SPACE: u8 = 0x20;

/// The primary key of a row: 1 to 32 bytes, each from 0x21 to 0x7e. Where values are unique, there are
/// also the keys of the index: a space, and then the 1 to 31 bytes of a value. Keys compare as lists of
/// bytes.
#[derive(Clone, Copy)]
pub struct Key {
    bytes: [u8; KEY_BYTES],
    len: u8,
}

impl Model for Key {
    ghost use Rattle.std.specs.Prelude.{List, ℕ, take, length};
    ghost use Rattle.sig_core.specs.Filled.{filled, filled-held, length-held};
    ghost use Rattle.sig_core.specs.IndexKey.{IsKeyBytes};
    ghost use Rattle.sig_core.specs.declared.key.TheConstants.{KEY_BYTES};

    ghost Value = { List ℕ };

    ghost view = { λ k. take k.len k.bytes };

    ghost invariant = { λ k. IsKeyBytes k.bytes k.len };

    ghost inverse = { λ bytes. record { bytes = filled 0 KEY_BYTES bytes; len = length bytes } };

    ghost inverse_ok = { λ k is i. record { bytes = filled-held is.filled i; len = length-held is.filled i } };
}

impl Key {
    /// The key of these bytes.
    ///
    /// # Errors
    /// `Length` where there are none or more than 32, else `BadByte` at the first that is not from
    /// 0x21 to 0x7e.
    #[tactic(auto, using(crate::proofs::KeyLemmas::stored_key))]
    pub fn new(bytes: &[u8]) -> Result<Key, WordFault>
        ensures { result ≡ if_word 1 KEY_BYTES bytes.now bytes.now }
    {
        check(bytes, 1, KEY_BYTES)?;
        let mut stored = [0; KEY_BYTES];
        put_front(&mut stored, bytes);
        Ok(Key {
            bytes: stored,
            len: bytes.len() as u8,
        })
    }

    /// The key of the index by which the row with this value is found. None where the value is empty
    /// or has more than 31 bytes.
    #[tactic(auto, using(crate::proofs::KeyLemmas::indexes))]
    pub fn index(value: &Value) -> Option<Key>
        ensures { result ≡ index_of value.now }
    {
        let bytes = value.bytes();
        if bytes.is_empty() || bytes.len() >= KEY_BYTES {
            return None;
        }
        let mut stored = [0; KEY_BYTES];
        put_front(&mut stored[1..], bytes);
        stored[0] = SPACE;
        Some(Key {
            bytes: stored,
            len: bytes.len() as u8 + 1,
        })
    }

    /// Whether it is a key of the index.
    pub fn is_index(&self) -> bool
        ensures { result ≡ is_index self.now }
    {
        self.bytes()[0] == SPACE
    }

    /// The key's bytes.
    #[tactic(auto, using(crate::proofs::KeyLemmas::some_bytes))]
    pub fn bytes(&self) -> &[u8]
        ensures value { result.now ≡ self.now }
        ensures least { 1 ≤ length self.now }
        ensures most { length self.now ≤ KEY_BYTES }
    {
        &self.bytes[..self.len as usize]
    }
}

impl PartialEq for Key {
    ghost eq = { pointwise nat_eq };

    ghost laws = { partial_equiv_from_equiv nat_list_eq_equiv };

    // Most keys are so short that slices aren't worth their while, and most that differ do so early.
    fn eq(&self, other: &Key) -> bool {
        if self.len != other.len {
            return false;
        }
        for at in 0..self.len as usize {
            if self.bytes[at] != other.bytes[at] {
                return false;
            }
        }
        true
    }
}

impl Eq for Key {
    ghost laws = { nat_list_eq_equiv };
}

impl PartialOrd for Key {
    ghost partial_cmp = { λ x y. Some (slice_cmp nat_cmp x y) };

    ghost laws = { texts_po };

    fn partial_cmp(&self, other: &Key) -> Option<Ordering> {
        Some(self.cmp(other))
    }
}

impl Ord for Key {
    ghost cmp = { slice_cmp nat_cmp };

    ghost total = { nat_list_cmp_total };

    ghost matches_partial_cmp = { λ x y. refl };

    ghost matches_eq = { texts_ties };

    fn cmp(&self, other: &Key) -> Ordering {
        self.bytes().cmp(other.bytes())
    }
}

impl Hash for Key {
    ghost hash_input = { fed.slice fed.u8 };

    ghost respects_eq = { Prim.search (hashing, rules) };

    fn hash<H: Hasher>(&self, state: &mut H) {
        self.bytes().hash(state);
    }
}

impl fmt::Debug for Key {
    fn fmt<W: fmt::Write>(&self, f: &mut fmt::Formatter<W>) -> fmt::Result {
        fmt::Debug::fmt(self.bytes(), f)
    }
}
