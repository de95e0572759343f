//! A kind, and several things behind it.
ghost use Rattle.std.specs.Prelude.{◌≡◌, ◌∷◌, ◌++◌, OnOk};
ghost use Rattle.trace_bytes.specs.Lists.{list_bytes, ◌&◌};
ghost use Rattle.trace_bytes.specs.Numbers.{u16_bytes, u32_bytes, u64_bytes, u8_bytes};
ghost use Rattle.trace_bytes.specs.Operations.{op_bytes};
ghost use Rattle.trace_bytes.specs.Places.{block_bytes};
ghost use Rattle.trace_bytes.specs.Words.{bool_bytes, change_bytes, host_bytes, key_bytes, member_bytes, members_bytes};
ghost use Rattle.trace_bytes.specs.Words.{name_bytes, opt_member_bytes, opt_row_bytes, opt_u64_bytes, opt_u8_bytes};
ghost use Rattle.trace_bytes.specs.Words.{opt_value_bytes, row_bytes, tx_bytes, value_bytes};
ghost use Rattle.trace_bytes.specs.Works.{work_bytes};

use crate::output::Output;
use crate::write::lists::put_list;
use sig_core::{
    BlockId, Change, Held, HostId, Key, Member, Members, NoMemory, Op, TxId, Value, Work,
};

impl Output {
    /// Adds a kind and a block, a number and a byte.
    pub fn put_block_u64_u8(
        &mut self,
        kind: u8,
        by: BlockId,
        req: u64,
        file: u8,
    ) -> Result<(), NoMemory>
        ensures { OnOk result (self.new ≡ self.old ++ (kind ∷ block_bytes by & u64_bytes req & u8_bytes file)) }
    {
        self.u8(kind)?;
        self.block(by)?;
        self.u64(req)?;
        self.u8(file)
    }

    /// Adds a kind and a block, a number, a byte, a number and bytes.
    pub fn put_block_u64_u8_u64_bytes(
        &mut self,
        kind: u8,
        by: BlockId,
        req: u64,
        file: u8,
        at: u64,
        bytes: &[u8],
    ) -> Result<(), NoMemory>
        ensures { OnOk result (self.new ≡ self.old ++ (kind ∷ block_bytes by & u64_bytes req & u8_bytes file & u64_bytes at & list_bytes u8_bytes bytes.now)) }
    {
        self.u8(kind)?;
        self.block(by)?;
        self.u64(req)?;
        self.u8(file)?;
        self.u64(at)?;
        put_list(self, bytes)
    }

    /// Adds a kind and a key and a value or none.
    pub fn put_key_opt_value(
        &mut self,
        kind: u8,
        key: &Key,
        value: &Option<Value>,
    ) -> Result<(), NoMemory>
        ensures { OnOk result (self.new ≡ self.old ++ (kind ∷ key_bytes key.now & opt_value_bytes value.now)) }
    {
        self.u8(kind)?;
        self.key(key)?;
        self.opt_value(value)
    }

    /// Adds a kind and a key and a number.
    pub fn put_key_u64(&mut self, kind: u8, key: &Key, epoch: u64) -> Result<(), NoMemory>
        ensures { OnOk result (self.new ≡ self.old ++ (kind ∷ key_bytes key.now & u64_bytes epoch)) }
    {
        self.u8(kind)?;
        self.key(key)?;
        self.u64(epoch)
    }

    /// Adds a kind and a key and a value.
    pub fn put_key_value(&mut self, kind: u8, key: &Key, value: &Value) -> Result<(), NoMemory>
        ensures { OnOk result (self.new ≡ self.old ++ (kind ∷ key_bytes key.now & value_bytes value.now)) }
    {
        self.u8(kind)?;
        self.key(key)?;
        self.value(value)
    }

    /// Adds a kind and a member and a number or none.
    pub fn put_member_opt_u64(
        &mut self,
        kind: u8,
        member: Member,
        own: Option<u64>,
    ) -> Result<(), NoMemory>
        ensures { OnOk result (self.new ≡ self.old ++ (kind ∷ member_bytes member & opt_u64_bytes own)) }
    {
        self.u8(kind)?;
        self.member(member)?;
        self.opt_u64(own)
    }

    /// Adds a kind and a member, a byte and a number or none.
    pub fn put_member_u8_opt_u64(
        &mut self,
        kind: u8,
        member: Member,
        fragment: u8,
        own: Option<u64>,
    ) -> Result<(), NoMemory>
        ensures { OnOk result (self.new ≡ self.old ++ (kind ∷ member_bytes member & u8_bytes fragment & opt_u64_bytes own)) }
    {
        self.u8(kind)?;
        self.member(member)?;
        self.u8(fragment)?;
        self.opt_u64(own)
    }

    /// Adds a kind and a name and an operation.
    pub fn put_name_op(&mut self, kind: u8, name: Option<u16>, op: &Op) -> Result<(), NoMemory>
        ensures { OnOk result (self.new ≡ self.old ++ (kind ∷ name_bytes name & op_bytes op.now)) }
    {
        self.u8(kind)?;
        self.name(name)?;
        self.op(op)
    }

    /// Adds a kind and a name and a transaction.
    pub fn put_name_tx(&mut self, kind: u8, name: Option<u16>, tx: TxId) -> Result<(), NoMemory>
        ensures { OnOk result (self.new ≡ self.old ++ (kind ∷ name_bytes name & tx_bytes tx)) }
    {
        self.u8(kind)?;
        self.name(name)?;
        self.tx(tx)
    }

    /// Adds a kind and a row or none, a number and a number or none.
    pub fn put_opt_row_u64_opt_u64(
        &mut self,
        kind: u8,
        row: &Option<Held<(Key, Value)>>,
        epoch: u64,
        next: Option<u64>,
    ) -> Result<(), NoMemory>
        ensures { OnOk result (self.new ≡ self.old ++ (kind ∷ opt_row_bytes row.now & u64_bytes epoch & opt_u64_bytes next)) }
    {
        self.u8(kind)?;
        self.opt_row(row)?;
        self.u64(epoch)?;
        self.opt_u64(next)
    }

    /// Adds a kind and a row and a number.
    pub fn put_row_u64(&mut self, kind: u8, row: &(Key, Value), epoch: u64) -> Result<(), NoMemory>
        ensures { OnOk result (self.new ≡ self.old ++ (kind ∷ row_bytes row.now & u64_bytes epoch)) }
    {
        self.u8(kind)?;
        self.row(row)?;
        self.u64(epoch)
    }

    /// Adds a kind and rows and a number or none.
    pub fn put_rows_opt_u64(
        &mut self,
        kind: u8,
        rows: &[(Key, Value)],
        next: Option<u64>,
    ) -> Result<(), NoMemory>
        ensures { OnOk result (self.new ≡ self.old ++ (kind ∷ list_bytes row_bytes rows.now & opt_u64_bytes next)) }
    {
        self.u8(kind)?;
        put_list(self, rows)?;
        self.opt_u64(next)
    }

    /// Adds a kind and a number, a number, a number, a number, a number and a number.
    pub fn put_six(
        &mut self,
        kind: u8,
        current: u64,
        prepared: u64,
        next: u64,
        closed: u64,
        saved: u64,
        durable: u64,
    ) -> Result<(), NoMemory>
        ensures { OnOk result (self.new ≡ self.old ++ (kind ∷ u64_bytes current & u64_bytes prepared & u64_bytes next & u64_bytes closed & u64_bytes saved & u64_bytes durable)) }
    {
        self.u8(kind)?;
        self.u64(current)?;
        self.u64(prepared)?;
        self.u64(next)?;
        self.u64(closed)?;
        self.u64(saved)?;
        self.u64(durable)
    }

    /// Adds a kind and a number, a number and a number.
    pub fn put_three(
        &mut self,
        kind: u8,
        used: u64,
        reserved: u64,
        need: u64,
    ) -> Result<(), NoMemory>
        ensures { OnOk result (self.new ≡ self.old ++ (kind ∷ u64_bytes used & u64_bytes reserved & u64_bytes need)) }
    {
        self.u8(kind)?;
        self.u64(used)?;
        self.u64(reserved)?;
        self.u64(need)
    }

    /// Adds a kind and a number and a number.
    pub fn put_two(&mut self, kind: u8, epoch: u64, next: u64) -> Result<(), NoMemory>
        ensures { OnOk result (self.new ≡ self.old ++ (kind ∷ u64_bytes epoch & u64_bytes next)) }
    {
        self.u8(kind)?;
        self.u64(epoch)?;
        self.u64(next)
    }

    /// Adds a kind and a number and an operation.
    pub fn put_u16_op(&mut self, kind: u8, name: u16, op: &Op) -> Result<(), NoMemory>
        ensures { OnOk result (self.new ≡ self.old ++ (kind ∷ u16_bytes name & op_bytes op.now)) }
    {
        self.u8(kind)?;
        self.u16(name)?;
        self.op(op)
    }

    /// Adds a kind and a number and a byte or none.
    pub fn put_u16_opt_u8(&mut self, kind: u8, name: u16, node: Option<u8>) -> Result<(), NoMemory>
        ensures { OnOk result (self.new ≡ self.old ++ (kind ∷ u16_bytes name & opt_u8_bytes node)) }
    {
        self.u8(kind)?;
        self.u16(name)?;
        self.opt_u8(node)
    }

    /// Adds a kind and a number and a number.
    pub fn put_u32_u64(&mut self, kind: u8, backup: u32, epoch: u64) -> Result<(), NoMemory>
        ensures { OnOk result (self.new ≡ self.old ++ (kind ∷ u32_bytes backup & u64_bytes epoch)) }
    {
        self.u8(kind)?;
        self.u32(backup)?;
        self.u64(epoch)
    }

    /// Adds a kind and a number and a change.
    pub fn put_u64_change(&mut self, kind: u8, epoch: u64, change: &Change) -> Result<(), NoMemory>
        ensures { OnOk result (self.new ≡ self.old ++ (kind ∷ u64_bytes epoch & change_bytes change.now)) }
    {
        self.u8(kind)?;
        self.u64(epoch)?;
        self.change(change)
    }

    /// Adds a kind and a number and members.
    pub fn put_u64_members(
        &mut self,
        kind: u8,
        number: u64,
        members: &Members,
    ) -> Result<(), NoMemory>
        ensures { OnOk result (self.new ≡ self.old ++ (kind ∷ u64_bytes number & members_bytes members.now)) }
    {
        self.u8(kind)?;
        self.u64(number)?;
        self.members(members)
    }

    /// Adds a kind and a number, members and a member or none.
    pub fn put_u64_members_opt_member(
        &mut self,
        kind: u8,
        number: u64,
        members: &Members,
        joining: Option<Member>,
    ) -> Result<(), NoMemory>
        ensures { OnOk result (self.new ≡ self.old ++ (kind ∷ u64_bytes number & members_bytes members.now & opt_member_bytes joining)) }
    {
        self.u8(kind)?;
        self.u64(number)?;
        self.members(members)?;
        self.opt_member(joining)
    }

    /// Adds a kind and a number and a byte.
    pub fn put_u64_u8(&mut self, kind: u8, epoch: u64, mask: u8) -> Result<(), NoMemory>
        ensures { OnOk result (self.new ≡ self.old ++ (kind ∷ u64_bytes epoch & u8_bytes mask)) }
    {
        self.u8(kind)?;
        self.u64(epoch)?;
        self.u8(mask)
    }

    /// Adds a kind and a number, a byte, a number, changes and whether it is so.
    pub fn put_u64_u8_u64_changes_bool(
        &mut self,
        kind: u8,
        epoch: u64,
        fragment: u8,
        at: u64,
        changes: &[Change],
        last: bool,
    ) -> Result<(), NoMemory>
        ensures { OnOk result (self.new ≡ self.old ++ (kind ∷ u64_bytes epoch & u8_bytes fragment & u64_bytes at & list_bytes change_bytes changes.now & bool_bytes last)) }
    {
        self.u8(kind)?;
        self.u64(epoch)?;
        self.u8(fragment)?;
        self.u64(at)?;
        put_list(self, changes)?;
        self.bool(last)
    }

    /// Adds a kind and a byte and a host.
    pub fn put_u8_host(&mut self, kind: u8, node: u8, first: HostId) -> Result<(), NoMemory>
        ensures { OnOk result (self.new ≡ self.old ++ (kind ∷ u8_bytes node & host_bytes first)) }
    {
        self.u8(kind)?;
        self.u8(node)?;
        self.host(first)
    }

    /// Adds a kind and a byte and a number or none.
    pub fn put_u8_opt_u64(&mut self, kind: u8, node: u8, own: Option<u64>) -> Result<(), NoMemory>
        ensures { OnOk result (self.new ≡ self.old ++ (kind ∷ u8_bytes node & opt_u64_bytes own)) }
    {
        self.u8(kind)?;
        self.u8(node)?;
        self.opt_u64(own)
    }

    /// Adds a kind and a byte and a number.
    pub fn put_u8_u32(&mut self, kind: u8, node: u8, after: u32) -> Result<(), NoMemory>
        ensures { OnOk result (self.new ≡ self.old ++ (kind ∷ u8_bytes node & u32_bytes after)) }
    {
        self.u8(kind)?;
        self.u8(node)?;
        self.u32(after)
    }

    /// Adds a kind and a byte and a number.
    pub fn put_u8_u64(&mut self, kind: u8, fragment: u8, at: u64) -> Result<(), NoMemory>
        ensures { OnOk result (self.new ≡ self.old ++ (kind ∷ u8_bytes fragment & u64_bytes at)) }
    {
        self.u8(kind)?;
        self.u8(fragment)?;
        self.u64(at)
    }

    /// Adds a kind and a byte and a byte.
    pub fn put_u8_u8(&mut self, kind: u8, one: u8, other: u8) -> Result<(), NoMemory>
        ensures { OnOk result (self.new ≡ self.old ++ (kind ∷ u8_bytes one & u8_bytes other)) }
    {
        self.u8(kind)?;
        self.u8(one)?;
        self.u8(other)
    }

    /// Adds a kind and work to go on with and a number.
    pub fn put_work_u64(&mut self, kind: u8, work: &Work, at: u64) -> Result<(), NoMemory>
        ensures { OnOk result (self.new ≡ self.old ++ (kind ∷ work_bytes work.now & u64_bytes at)) }
    {
        self.u8(kind)?;
        self.work(work)?;
        self.u64(at)
    }
}
