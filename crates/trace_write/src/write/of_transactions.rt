//! A kind, a transaction, and what is said of it.
ghost use Rattle.std.specs.Prelude.{◌≡◌, ◌∷◌, ◌++◌, OnOk};
ghost use Rattle.trace_bytes.specs.Causes.{cause_bytes, outcome_bytes};
ghost use Rattle.trace_bytes.specs.Lists.{list_bytes, ◌&◌};
ghost use Rattle.trace_bytes.specs.Numbers.{u64_bytes, u8_bytes};
ghost use Rattle.trace_bytes.specs.Operations.{answer_bytes, answered_bytes, op_bytes, rowwork_bytes, uanswer_bytes};
ghost use Rattle.trace_bytes.specs.Places.{state_bytes};
ghost use Rattle.trace_bytes.specs.Words.{chain_bytes, key_bytes, tx_bytes};

use crate::output::Output;
use crate::write::lists::put_list;
use sig_core::{
    AbortCause, Answer, Chain, HeldAnswer, HeldOp, HeldWork, Key, NoMemory, Op, Outcome,
    RecordState, TxId, UAnswer,
};

impl Output {
    /// Adds a kind and a transaction and an answer.
    pub fn put_tx_answer(&mut self, kind: u8, tx: TxId, answer: &Answer) -> Result<(), NoMemory>
        ensures { OnOk result (self.new ≡ self.old ++ (kind ∷ tx_bytes tx & answer_bytes answer.now)) }
    {
        self.u8(kind)?;
        self.tx(tx)?;
        self.answer(answer)
    }

    /// Adds a kind and a transaction and a cause.
    pub fn put_tx_cause(&mut self, kind: u8, tx: TxId, cause: &AbortCause) -> Result<(), NoMemory>
        ensures { OnOk result (self.new ≡ self.old ++ (kind ∷ tx_bytes tx & cause_bytes cause.now)) }
    {
        self.u8(kind)?;
        self.tx(tx)?;
        self.cause(cause)
    }

    /// Adds a kind and a transaction and a key.
    pub fn put_tx_key(&mut self, kind: u8, tx: TxId, key: &Key) -> Result<(), NoMemory>
        ensures { OnOk result (self.new ≡ self.old ++ (kind ∷ tx_bytes tx & key_bytes key.now)) }
    {
        self.u8(kind)?;
        self.tx(tx)?;
        self.key(key)
    }

    /// Adds a kind and a transaction, a key and an answer.
    pub fn put_tx_key_answer(
        &mut self,
        kind: u8,
        tx: TxId,
        key: &Key,
        answer: &Answer,
    ) -> Result<(), NoMemory>
        ensures { OnOk result (self.new ≡ self.old ++ (kind ∷ tx_bytes tx & key_bytes key.now & answer_bytes answer.now)) }
    {
        self.u8(kind)?;
        self.tx(tx)?;
        self.key(key)?;
        self.answer(answer)
    }

    /// Adds a kind and a transaction, a key and a cause.
    pub fn put_tx_key_cause(
        &mut self,
        kind: u8,
        tx: TxId,
        key: &Key,
        cause: &AbortCause,
    ) -> Result<(), NoMemory>
        ensures { OnOk result (self.new ≡ self.old ++ (kind ∷ tx_bytes tx & key_bytes key.now & cause_bytes cause.now)) }
    {
        self.u8(kind)?;
        self.tx(tx)?;
        self.key(key)?;
        self.cause(cause)
    }

    /// Adds a kind and a transaction, a key, a chain and a byte.
    pub fn put_tx_key_chain_u8(
        &mut self,
        kind: u8,
        tx: TxId,
        key: &Key,
        chain: &Chain,
        at: u8,
    ) -> Result<(), NoMemory>
        ensures { OnOk result (self.new ≡ self.old ++ (kind ∷ tx_bytes tx & key_bytes key.now & chain_bytes chain.now & u8_bytes at)) }
    {
        self.u8(kind)?;
        self.tx(tx)?;
        self.key(key)?;
        self.chain(chain)?;
        self.u8(at)
    }

    /// Adds a kind and a transaction, a key, a state and a number.
    pub fn put_tx_key_state_u64(
        &mut self,
        kind: u8,
        tx: TxId,
        key: &Key,
        state: RecordState,
        epoch: u64,
    ) -> Result<(), NoMemory>
        ensures { OnOk result (self.new ≡ self.old ++ (kind ∷ tx_bytes tx & key_bytes key.now & state_bytes state & u64_bytes epoch)) }
    {
        self.u8(kind)?;
        self.tx(tx)?;
        self.key(key)?;
        self.state(state)?;
        self.u64(epoch)
    }

    /// Adds a kind and a transaction, a key, a number, a chain and a byte.
    pub fn put_tx_key_u64_chain_u8(
        &mut self,
        kind: u8,
        tx: TxId,
        key: &Key,
        epoch: u64,
        chain: &Chain,
        at: u8,
    ) -> Result<(), NoMemory>
        ensures { OnOk result (self.new ≡ self.old ++ (kind ∷ tx_bytes tx & key_bytes key.now & u64_bytes epoch & chain_bytes chain.now & u8_bytes at)) }
    {
        self.u8(kind)?;
        self.tx(tx)?;
        self.key(key)?;
        self.u64(epoch)?;
        self.chain(chain)?;
        self.u8(at)
    }

    /// Adds a kind and a transaction and an operation.
    pub fn put_tx_op(&mut self, kind: u8, tx: TxId, op: &Op) -> Result<(), NoMemory>
        ensures { OnOk result (self.new ≡ self.old ++ (kind ∷ tx_bytes tx & op_bytes op.now)) }
    {
        self.u8(kind)?;
        self.tx(tx)?;
        self.op(op)
    }

    /// Adds a kind and a transaction and operations with their answers.
    pub fn put_tx_ops(
        &mut self,
        kind: u8,
        tx: TxId,
        ops: &[(HeldOp, HeldAnswer)],
    ) -> Result<(), NoMemory>
        ensures { OnOk result (self.new ≡ self.old ++ (kind ∷ tx_bytes tx & list_bytes answered_bytes ops.now)) }
    {
        self.u8(kind)?;
        self.tx(tx)?;
        put_list(self, ops)
    }

    /// Adds a kind and a transaction and an outcome.
    pub fn put_tx_outcome(&mut self, kind: u8, tx: TxId, outcome: &Outcome) -> Result<(), NoMemory>
        ensures { OnOk result (self.new ≡ self.old ++ (kind ∷ tx_bytes tx & outcome_bytes outcome.now)) }
    {
        self.u8(kind)?;
        self.tx(tx)?;
        self.outcome(outcome)
    }

    /// Adds a kind and a transaction, work on a row, a chain and a byte.
    pub fn put_tx_rowwork_chain_u8(
        &mut self,
        kind: u8,
        tx: TxId,
        work: &HeldWork,
        chain: &Chain,
        at: u8,
    ) -> Result<(), NoMemory>
        ensures { OnOk result (self.new ≡ self.old ++ (kind ∷ tx_bytes tx & rowwork_bytes work.now & chain_bytes chain.now & u8_bytes at)) }
    {
        self.u8(kind)?;
        self.tx(tx)?;
        self.rowwork(work)?;
        self.chain(chain)?;
        self.u8(at)
    }

    /// Adds a kind and a transaction and a transaction.
    pub fn put_tx_tx(&mut self, kind: u8, tx: TxId, ahead: TxId) -> Result<(), NoMemory>
        ensures { OnOk result (self.new ≡ self.old ++ (kind ∷ tx_bytes tx & tx_bytes ahead)) }
    {
        self.u8(kind)?;
        self.tx(tx)?;
        self.tx(ahead)
    }

    /// Adds a kind and a transaction and a number.
    pub fn put_tx_u64(&mut self, kind: u8, tx: TxId, epoch: u64) -> Result<(), NoMemory>
        ensures { OnOk result (self.new ≡ self.old ++ (kind ∷ tx_bytes tx & u64_bytes epoch)) }
    {
        self.u8(kind)?;
        self.tx(tx)?;
        self.u64(epoch)
    }

    /// Adds a kind and a transaction and an answer.
    pub fn put_tx_uanswer(&mut self, kind: u8, tx: TxId, answer: &UAnswer) -> Result<(), NoMemory>
        ensures { OnOk result (self.new ≡ self.old ++ (kind ∷ tx_bytes tx & uanswer_bytes answer.now)) }
    {
        self.u8(kind)?;
        self.tx(tx)?;
        self.uanswer(answer)
    }
}
