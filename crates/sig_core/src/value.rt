//! The value of a row.
ghost use Rattle.std.specs.Prelude.{◌≡◌, ◌≤◌, None, length, nat_eq, position};
ghost use Rattle.std.specs.Cmp.{partial_equiv_from_equiv};
ghost use Rattle.std.specs.Cmp.Lexicographic.{pointwise, nat_list_eq_equiv};
ghost use Rattle.sig_core.specs.Word.{if_word, is_unprintable};
ghost use Rattle.sig_core.specs.declared.value.TheConstants.{VALUE_BYTES};

use crate::word::{WordFault, check, put_front};
use std::fmt;
use std::marker::Model;

/// The most bytes that a value has.
pub const VALUE_BYTES: usize = 200;

/// The value of a row: 0 to 200 bytes, each from 0x21 to 0x7e.
#[derive(Clone, Copy)]
pub struct Value {
    bytes: [u8; VALUE_BYTES],
    len: u8,
}

impl Model for Value {
    ghost use Rattle.std.specs.Prelude.{List, ℕ, take, length};
    ghost use Rattle.sig_core.specs.Filled.{filled, filled-held, length-held};
    ghost use Rattle.sig_core.specs.Word.{IsWord};
    ghost use Rattle.sig_core.specs.declared.value.TheConstants.{VALUE_BYTES};

    ghost Value = { List ℕ };

    ghost view = { λ v. take v.len v.bytes };

    ghost invariant = { λ v. IsWord 0 VALUE_BYTES v.bytes v.len };

    ghost inverse = { λ bytes. record { bytes = filled 0 VALUE_BYTES bytes; len = length bytes } };

    ghost inverse_ok = { λ v is i. record { bytes = filled-held is.filled i; len = length-held is.filled i } };
}

impl Value {
    /// The value of these bytes.
    ///
    /// # Errors
    /// `Length` where there are more than 200, else `BadByte` at the first that is not from 0x21
    /// to 0x7e.
    #[tactic(auto, using(crate::proofs::WordLemmas::stored_word))]
    pub fn new(bytes: &[u8]) -> Result<Value, WordFault>
        ensures { result ≡ if_word 0 VALUE_BYTES bytes.now bytes.now }
    {
        check(bytes, 0, VALUE_BYTES)?;
        let mut stored = [0; VALUE_BYTES];
        put_front(&mut stored, bytes);
        Ok(Value {
            bytes: stored,
            len: bytes.len() as u8,
        })
    }

    /// The value's bytes.
    pub fn bytes(&self) -> &[u8]
        ensures value { result.now ≡ self.now }
        ensures most { length self.now ≤ VALUE_BYTES }
        ensures printable { position is_unprintable self.now ≡ None }
    {
        &self.bytes[..self.len as usize]
    }
}

impl PartialEq for Value {
    ghost eq = { pointwise nat_eq };

    ghost laws = { partial_equiv_from_equiv nat_list_eq_equiv };

    fn eq(&self, other: &Value) -> bool {
        self.bytes() == other.bytes()
    }
}

impl Eq for Value {
    ghost laws = { nat_list_eq_equiv };
}

impl fmt::Debug for Value {
    fn fmt<W: fmt::Write>(&self, f: &mut fmt::Formatter<W>) -> fmt::Result {
        fmt::Debug::fmt(self.bytes(), f)
    }
}
