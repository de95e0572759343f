//! What may be left out.
ghost use Rattle.std.specs.Prelude.{◌≡◌, ◌++◌, OnOk};
ghost use Rattle.trace_bytes.specs.Words.{name_bytes, opt_member_bytes, opt_row_bytes, opt_u8_bytes, opt_u64_bytes};
ghost use Rattle.trace_bytes.specs.Words.{opt_value_bytes};

use crate::output::Output;
use sig_core::{Held, Key, Member, NoMemory, Value};

impl Output {
    /// Adds the name of a transaction, where it has one.
    pub fn name(&mut self, name: Option<u16>) -> Result<(), NoMemory>
        ensures { OnOk result (self.new ≡ self.old ++ name_bytes name) }
    {
        match name {
            None => self.u8(0),
            Some(name) => self.put_u16(1, name),
        }
    }

    /// Adds a byte or none.
    pub fn opt_u8(&mut self, byte: Option<u8>) -> Result<(), NoMemory>
        ensures { OnOk result (self.new ≡ self.old ++ opt_u8_bytes byte) }
    {
        match byte {
            None => self.u8(0),
            Some(byte) => self.put_u8(1, byte),
        }
    }

    /// Adds a number or none.
    pub fn opt_u64(&mut self, number: Option<u64>) -> Result<(), NoMemory>
        ensures { OnOk result (self.new ≡ self.old ++ opt_u64_bytes number) }
    {
        match number {
            None => self.u8(0),
            Some(number) => self.put_u64(1, number),
        }
    }

    /// Adds a member or none.
    pub fn opt_member(&mut self, member: Option<Member>) -> Result<(), NoMemory>
        ensures { OnOk result (self.new ≡ self.old ++ opt_member_bytes member) }
    {
        match member {
            None => self.u8(0),
            Some(member) => self.put_member(1, member),
        }
    }

    /// Adds a value or none.
    pub fn opt_value(&mut self, value: &Option<Value>) -> Result<(), NoMemory>
        ensures { OnOk result (self.new ≡ self.old ++ opt_value_bytes value.now) }
    {
        match value {
            None => self.u8(0),
            Some(value) => self.put_value(1, value),
        }
    }

    /// Adds a row or none.
    pub fn opt_row(&mut self, row: &Option<Held<(Key, Value)>>) -> Result<(), NoMemory>
        ensures { OnOk result (self.new ≡ self.old ++ opt_row_bytes row.now) }
    {
        match row {
            None => self.u8(0),
            Some(row) => self.put_row(1, row.get()),
        }
    }
}
