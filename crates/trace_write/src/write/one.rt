//! A kind, and one thing behind it.
ghost use Rattle.std.specs.Prelude.{◌≡◌, ◌∷◌, ◌++◌, OnOk};
ghost use Rattle.trace_bytes.specs.Causes.{cause_bytes, stop_bytes};
ghost use Rattle.trace_bytes.specs.Lines.{line_bytes};
ghost use Rattle.trace_bytes.specs.Lists.{list_bytes, ◌&◌};
ghost use Rattle.trace_bytes.specs.Numbers.{u16_bytes, u32_bytes, u64_bytes, u8_bytes};
ghost use Rattle.trace_bytes.specs.Operations.{answer_bytes, op_bytes};
ghost use Rattle.trace_bytes.specs.Places.{block_bytes};
ghost use Rattle.trace_bytes.specs.Requests.{request_bytes};
ghost use Rattle.trace_bytes.specs.Words.{host_bytes, key_bytes, member_bytes, members_bytes, name_bytes, row_bytes};
ghost use Rattle.trace_bytes.specs.Words.{tx_bytes, value_bytes, view_bytes};

use crate::output::Output;
use crate::write::lists::put_list;
use sig_core::{
    AbortCause, Answer, ApiReq, BatchLine, BlockId, HostId, Key, Member, Members, NoMemory, Op,
    StopCause, TxId, Value, View,
};

impl Output {
    /// Adds a kind and an answer.
    pub fn put_answer(&mut self, kind: u8, answer: &Answer) -> Result<(), NoMemory>
        ensures { OnOk result (self.new ≡ self.old ++ (kind ∷ answer_bytes answer.now)) }
    {
        self.u8(kind)?;
        self.answer(answer)
    }

    /// Adds a kind and a block.
    pub fn put_block(&mut self, kind: u8, by: BlockId) -> Result<(), NoMemory>
        ensures { OnOk result (self.new ≡ self.old ++ (kind ∷ block_bytes by)) }
    {
        self.u8(kind)?;
        self.block(by)
    }

    /// Adds a kind and a cause.
    pub fn put_cause(&mut self, kind: u8, cause: &AbortCause) -> Result<(), NoMemory>
        ensures { OnOk result (self.new ≡ self.old ++ (kind ∷ cause_bytes cause.now)) }
    {
        self.u8(kind)?;
        self.cause(cause)
    }

    /// Adds a kind and a host.
    pub fn put_host(&mut self, kind: u8, host: HostId) -> Result<(), NoMemory>
        ensures { OnOk result (self.new ≡ self.old ++ (kind ∷ host_bytes host)) }
    {
        self.u8(kind)?;
        self.host(host)
    }

    /// Adds a kind and a key.
    pub fn put_key(&mut self, kind: u8, key: &Key) -> Result<(), NoMemory>
        ensures { OnOk result (self.new ≡ self.old ++ (kind ∷ key_bytes key.now)) }
    {
        self.u8(kind)?;
        self.key(key)
    }

    /// Adds a kind and lines.
    pub fn put_lines(&mut self, kind: u8, lines: &[BatchLine]) -> Result<(), NoMemory>
        ensures { OnOk result (self.new ≡ self.old ++ (kind ∷ list_bytes line_bytes lines.now)) }
    {
        self.u8(kind)?;
        put_list(self, lines)
    }

    /// Adds a kind and a member.
    pub fn put_member(&mut self, kind: u8, member: Member) -> Result<(), NoMemory>
        ensures { OnOk result (self.new ≡ self.old ++ (kind ∷ member_bytes member)) }
    {
        self.u8(kind)?;
        self.member(member)
    }

    /// Adds a kind and members.
    pub fn put_members(&mut self, kind: u8, suspects: &Members) -> Result<(), NoMemory>
        ensures { OnOk result (self.new ≡ self.old ++ (kind ∷ members_bytes suspects.now)) }
    {
        self.u8(kind)?;
        self.members(suspects)
    }

    /// Adds a kind and a name.
    pub fn put_name(&mut self, kind: u8, name: Option<u16>) -> Result<(), NoMemory>
        ensures { OnOk result (self.new ≡ self.old ++ (kind ∷ name_bytes name)) }
    {
        self.u8(kind)?;
        self.name(name)
    }

    /// Adds a kind and an operation.
    pub fn put_op(&mut self, kind: u8, op: &Op) -> Result<(), NoMemory>
        ensures { OnOk result (self.new ≡ self.old ++ (kind ∷ op_bytes op.now)) }
    {
        self.u8(kind)?;
        self.op(op)
    }

    /// Adds a kind and a request.
    pub fn put_request(&mut self, kind: u8, request: &ApiReq) -> Result<(), NoMemory>
        ensures { OnOk result (self.new ≡ self.old ++ (kind ∷ request_bytes request.now)) }
    {
        self.u8(kind)?;
        self.request(request)
    }

    /// Adds a kind and a row.
    pub fn put_row(&mut self, kind: u8, row: &(Key, Value)) -> Result<(), NoMemory>
        ensures { OnOk result (self.new ≡ self.old ++ (kind ∷ row_bytes row.now)) }
    {
        self.u8(kind)?;
        self.row(row)
    }

    /// Adds a kind and a cause.
    pub fn put_stop(&mut self, kind: u8, cause: &StopCause) -> Result<(), NoMemory>
        ensures { OnOk result (self.new ≡ self.old ++ (kind ∷ stop_bytes cause.now)) }
    {
        self.u8(kind)?;
        self.stop(cause)
    }

    /// Adds a kind and a transaction.
    pub fn put_tx(&mut self, kind: u8, tx: TxId) -> Result<(), NoMemory>
        ensures { OnOk result (self.new ≡ self.old ++ (kind ∷ tx_bytes tx)) }
    {
        self.u8(kind)?;
        self.tx(tx)
    }

    /// Adds a kind and a number.
    pub fn put_u16(&mut self, kind: u8, name: u16) -> Result<(), NoMemory>
        ensures { OnOk result (self.new ≡ self.old ++ (kind ∷ u16_bytes name)) }
    {
        self.u8(kind)?;
        self.u16(name)
    }

    /// Adds a kind and a number.
    pub fn put_u32(&mut self, kind: u8, backup: u32) -> Result<(), NoMemory>
        ensures { OnOk result (self.new ≡ self.old ++ (kind ∷ u32_bytes backup)) }
    {
        self.u8(kind)?;
        self.u32(backup)
    }

    /// Adds a kind and a number.
    pub fn put_u64(&mut self, kind: u8, view: u64) -> Result<(), NoMemory>
        ensures { OnOk result (self.new ≡ self.old ++ (kind ∷ u64_bytes view)) }
    {
        self.u8(kind)?;
        self.u64(view)
    }

    /// Adds a kind and a byte.
    pub fn put_u8(&mut self, kind: u8, u8: u8) -> Result<(), NoMemory>
        ensures { OnOk result (self.new ≡ self.old ++ (kind ∷ u8_bytes u8)) }
    {
        self.u8(kind)?;
        self.u8(u8)
    }

    /// Adds a kind and a value.
    pub fn put_value(&mut self, kind: u8, value: &Value) -> Result<(), NoMemory>
        ensures { OnOk result (self.new ≡ self.old ++ (kind ∷ value_bytes value.now)) }
    {
        self.u8(kind)?;
        self.value(value)
    }

    /// Adds a kind and a view.
    pub fn put_view(&mut self, kind: u8, view: &View) -> Result<(), NoMemory>
        ensures { OnOk result (self.new ≡ self.old ++ (kind ∷ view_bytes view.now)) }
    {
        self.u8(kind)?;
        self.view(view)
    }
}
