//! The bytes that are written, and the simplest things behind them.
ghost use Rattle.std.specs.Prelude.{◌≡◌, [], ◌∷◌, ◌++◌, length, OnOk};
ghost use Rattle.sig_core.specs.Redo.{word};
ghost use Rattle.trace_bytes.specs.Numbers.{u16_bytes, u32_bytes, u64_bytes};
ghost use Rattle.trace_bytes.specs.Words.{bool_bytes, host_bytes, member_bytes, tx_bytes};

use sig_core::{HostId, Key, Member, NoMemory, Seq, TxId, Value};
use std::alloc::Global;
use std::marker::Model;

/// The bytes that are written.
#[derive(Drop)]
pub struct Output {
    bytes: Vec<u8>,
}

impl Model for Output {
    ghost use Rattle.std.specs.Prelude.{List, ℕ};

    ghost Value = { List ℕ };

    ghost view = { λ o. o.bytes.items };
}

impl Output {
    /// No bytes.
    pub fn new(alloc: Global) -> Output
        ensures { result ≡ [] }
    {
        Output {
            bytes: Vec::new(alloc),
        }
    }

    /// How many bytes there are.
    pub fn len(&self) -> usize
        ensures { result ≡ length self.now }
    {
        self.bytes.len()
    }

    /// The bytes.
    pub fn into_seq(self) -> Seq<u8>
        ensures { result ≡ self }
    {
        Seq::from_vec(self.bytes)
    }

    /// Adds a byte.
    ///
    /// # Errors
    /// `NoMemory`, as of all that add.
    pub fn u8(&mut self, byte: u8) -> Result<(), NoMemory>
        ensures { OnOk result (self.new ≡ self.old ++ byte ∷ []) }
    {
        self.bytes.push(byte)?;
        Ok(())
    }

    /// Adds bytes.
    fn bytes(&mut self, bytes: &[u8]) -> Result<(), NoMemory>
        ensures { OnOk result (self.new ≡ self.old ++ bytes.now) }
    {
        self.bytes.extend_from_slice(bytes)?;
        Ok(())
    }

    /// Adds a number of two bytes, the highest first, as of all numbers.
    #[tactic(auto, unfolding(trace_bytes::specs::Numbers::u16_bytes))]
    pub fn u16(&mut self, number: u16) -> Result<(), NoMemory>
        ensures { OnOk result (self.new ≡ self.old ++ u16_bytes number) }
    {
        self.bytes(&number.to_be_bytes())
    }

    /// Adds a number of four bytes.
    #[tactic(auto, unfolding(trace_bytes::specs::Numbers::u32_bytes))]
    pub fn u32(&mut self, number: u32) -> Result<(), NoMemory>
        ensures { OnOk result (self.new ≡ self.old ++ u32_bytes number) }
    {
        self.bytes(&number.to_be_bytes())
    }

    /// Adds a number of eight bytes.
    #[tactic(auto, unfolding(trace_bytes::specs::Numbers::u64_bytes))]
    pub fn u64(&mut self, number: u64) -> Result<(), NoMemory>
        ensures { OnOk result (self.new ≡ self.old ++ u64_bytes number) }
    {
        self.bytes(&number.to_be_bytes())
    }

    /// Adds whether it is so.
    pub fn bool(&mut self, flag: bool) -> Result<(), NoMemory>
        ensures { OnOk result (self.new ≡ self.old ++ bool_bytes flag) }
    {
        if flag { self.u8(1) } else { self.u8(0) }
    }

    /// Adds a key, behind its length.
    pub fn key(&mut self, key: &Key) -> Result<(), NoMemory>
        ensures { OnOk result (self.new ≡ self.old ++ word key.now) }
    {
        self.u8(key.bytes().len() as u8)?;
        self.bytes(key.bytes())
    }

    /// Adds a value, behind its length.
    pub fn value(&mut self, value: &Value) -> Result<(), NoMemory>
        ensures { OnOk result (self.new ≡ self.old ++ word value.now) }
    {
        self.u8(value.bytes().len() as u8)?;
        self.bytes(value.bytes())
    }

    /// Adds a host.
    pub fn host(&mut self, host: HostId) -> Result<(), NoMemory>
        ensures { OnOk result (self.new ≡ self.old ++ host_bytes host) }
    {
        self.u32(host.0)
    }

    /// Adds a transaction.
    pub fn tx(&mut self, tx: TxId) -> Result<(), NoMemory>
        ensures { OnOk result (self.new ≡ self.old ++ tx_bytes tx) }
    {
        self.u8(tx.tc)?;
        self.u32(tx.start)?;
        self.u64(tx.seq)
    }

    /// Adds a member.
    pub fn member(&mut self, member: Member) -> Result<(), NoMemory>
        ensures { OnOk result (self.new ≡ self.old ++ member_bytes member) }
    {
        self.u8(member.node)?;
        self.u32(member.start)
    }
}
