//! The bytes that are left to read, and the simplest things at their front. A fault is how many bytes are left
//! where the first stands that doesn't fit.
ghost use Rattle.std.specs.Prelude.{◌≡◌, ◌≤◌, IfOk, length};
ghost use Rattle.std.specs.Int.{w16, w32, w64};
ghost use Rattle.sig_core.specs.declared.key.TheConstants.{KEY_BYTES};
ghost use Rattle.redo_format.specs.Reading.{byte_at, number_at};
ghost use Rattle.trace_read.specs.Reading.{Gives};
ghost use Rattle.trace_bytes.specs.Words.{bool_at, host_at, key_at, key_run_at, member_at, tx_at, value_at};

use crate::run::{begins_with_space, index_key_of, key_of, run_at, value_of};
use sig_core::{HostId, KEY_BYTES, Key, Member, TxId, VALUE_BYTES, Value};
use std::marker::Model;

/// The bytes that are left to read.
#[derive(Drop)]
pub struct Input<'a> {
    rest: &'a [u8],
}

impl<'a> Model for Input<'a> {
    ghost use Rattle.std.specs.Prelude.{List, ℕ};

    ghost Value = { List ℕ };

    ghost view = { λ i. i.rest.now };
}

impl<'a> Input<'a> {
    /// All these bytes.
    pub fn new(bytes: &'a [u8]) -> Input<'a>
        ensures { result ≡ bytes.now }
    {
        Input { rest: bytes }
    }

    /// How many bytes are left.
    pub fn left(&self) -> usize
        ensures { result ≡ length self.now }
    {
        self.rest.len()
    }

    /// A byte from `least` to `most`.
    pub fn byte(&mut self, least: u8, most: u8) -> Result<u8, usize>
        ensures read { Gives result self.new (byte_at least most self.old) }
        ensures range { IfOk result (λ byte. (least ≤ byte) × (byte ≤ most)) }
    {
        match self.rest {
            [] => Err(0),
            [byte, rest @ ..] => {
                if *byte < least || most < *byte {
                    return Err(self.rest.len());
                }
                self.rest = rest;
                Ok(*byte)
            }
        }
    }

    /// A byte.
    pub fn u8(&mut self) -> Result<u8, usize>
        ensures { Gives result self.new (byte_at 0 255 self.old) }
    {
        self.byte(0, 255)
    }

    /// A number of two bytes, the highest first, as of all numbers.
    pub fn u16(&mut self) -> Result<u16, usize>
        ensures { Gives result self.new (number_at w16 self.old) }
    {
        if self.rest.len() < 2 {
            return Err(0);
        }
        let (front, rest) = self.rest.split_at(2);
        let number = u16::from_be_bytes([front[0], front[1]]);
        self.rest = rest;
        Ok(number)
    }

    /// A number of four bytes.
    pub fn u32(&mut self) -> Result<u32, usize>
        ensures { Gives result self.new (number_at w32 self.old) }
    {
        if self.rest.len() < 4 {
            return Err(0);
        }
        let (front, rest) = self.rest.split_at(4);
        let number = u32::from_be_bytes([front[0], front[1], front[2], front[3]]);
        self.rest = rest;
        Ok(number)
    }

    /// A number of eight bytes.
    pub fn u64(&mut self) -> Result<u64, usize>
        ensures { Gives result self.new (number_at w64 self.old) }
    {
        if self.rest.len() < 8 {
            return Err(0);
        }
        let (front, rest) = self.rest.split_at(8);
        let number = u64::from_be_bytes([
            front[0], front[1], front[2], front[3], front[4], front[5], front[6], front[7],
        ]);
        self.rest = rest;
        Ok(number)
    }

    /// Whether it is so.
    #[tactic(auto, unfolding(trace_bytes::specs::Words::bool_at))]
    pub fn bool(&mut self) -> Result<bool, usize>
        ensures { Gives result self.new (bool_at self.old) }
    {
        let flag = self.byte(0, 1)?;
        Ok(flag == 1)
    }

    /// A value, behind its length.
    #[tactic(auto, unfolding(trace_bytes::specs::Words::value_at, redo_format::specs::Reading::word_at))]
    pub fn value(&mut self) -> Result<Value, usize>
        ensures { Gives result self.new (value_at self.old) }
    {
        let len = self.byte(0, VALUE_BYTES as u8)?;
        let (run, rest) = run_at(self.rest, len as usize)?;
        self.rest = rest;
        Ok(value_of(run))
    }

    /// A key, behind its length. One of the index begins with a space.
    #[tactic(auto, unfolding(trace_bytes::specs::Words::key_at))]
    pub fn key(&mut self) -> Result<Key, usize>
        ensures { Gives result self.new (key_at self.old) }
    {
        let len = self.byte(1, KEY_BYTES as u8)?;
        self.key_of_length(len)
    }

    // A key of this length.
    #[tactic(auto, unfolding(trace_bytes::specs::Words::key_run_at))]
    fn key_of_length(&mut self, len: u8) -> Result<Key, usize>
        requires least { 1 ≤ len }
        requires most { len ≤ KEY_BYTES }
        ensures { Gives result self.new (key_run_at len self.old) }
    {
        if begins_with_space(self.rest) && len > 1 {
            let (run, rest) = run_at(&self.rest[1..], len as usize - 1)?;
            self.rest = rest;
            return Ok(index_key_of(run));
        }
        let (run, rest) = run_at(self.rest, len as usize)?;
        self.rest = rest;
        Ok(key_of(run))
    }

    /// A host.
    #[tactic(auto, unfolding(trace_bytes::specs::Words::host_at))]
    pub fn host(&mut self) -> Result<HostId, usize>
        ensures { Gives result self.new (host_at self.old) }
    {
        let number = self.u32()?;
        Ok(HostId(number))
    }

    /// A transaction.
    #[tactic(auto, unfolding(trace_bytes::specs::Words::tx_at))]
    pub fn tx(&mut self) -> Result<TxId, usize>
        ensures { Gives result self.new (tx_at self.old) }
    {
        let tc = self.u8()?;
        let start = self.u32()?;
        let seq = self.u64()?;
        Ok(TxId { tc, start, seq })
    }

    /// A member.
    #[tactic(auto, unfolding(trace_bytes::specs::Words::member_at))]
    pub fn member(&mut self) -> Result<Member, usize>
        ensures { Gives result self.new (member_at self.old) }
    {
        let node = self.u8()?;
        let start = self.u32()?;
        Ok(Member { node, start })
    }
}
