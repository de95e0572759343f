//! Operations and their answers.
ghost use Rattle.std.specs.Prelude.{◌≡◌, ◌∷◌, ◌++◌, OnOk};
ghost use Rattle.trace_bytes.specs.Operations.{op_bytes, answer_bytes, uanswer_bytes, rowwork_bytes};

use crate::output::Output;
use sig_core::{Answer, HeldWork, NoMemory, Op, RowWork, UAnswer};
use trace_bytes::kinds::{answers, operations, row_works, unique_answers};

impl Output {
    /// Adds an operation.
    #[tactic(auto, unfolding(trace_bytes::specs::Operations::op_bytes))]
    pub fn op(&mut self, op: &Op) -> Result<(), NoMemory>
        ensures { OnOk result (self.new ≡ self.old ++ op_bytes op.now) }
    {
        match op {
            Op::Get(key) => self.put_key(operations::GET, key),
            Op::GetX(key) => self.put_key(operations::GET_X, key),
            Op::Put(key, value) => self.put_key_value(operations::PUT, key, value),
            Op::Ins(key, value) => self.put_key_value(operations::INS, key, value),
            Op::Upd(key, value) => self.put_key_value(operations::UPD, key, value),
            Op::Del(key) => self.put_key(operations::DEL, key),
        }
    }

    /// Adds an answer.
    #[tactic(auto, unfolding(trace_bytes::specs::Operations::answer_bytes))]
    pub fn answer(&mut self, answer: &Answer) -> Result<(), NoMemory>
        ensures { OnOk result (self.new ≡ self.old ++ answer_bytes answer.now) }
    {
        match answer {
            Answer::Done => self.u8(answers::DONE),
            Answer::Found(value) => self.put_value(answers::FOUND, value),
            Answer::Missing => self.u8(answers::MISSING),
            Answer::E626 => self.u8(answers::E626),
            Answer::E630 => self.u8(answers::E630),
        }
    }

    /// Adds an answer where values are unique.
    #[tactic(auto, unfolding(trace_bytes::specs::Operations::uanswer_bytes))]
    pub fn uanswer(&mut self, uanswer: &UAnswer) -> Result<(), NoMemory>
        ensures { OnOk result (self.new ≡ self.old ++ uanswer_bytes uanswer.now) }
    {
        match uanswer {
            UAnswer::Plain(answer) => self.put_answer(unique_answers::PLAIN, answer),
            UAnswer::Held(key) => self.put_key(unique_answers::HELD, key),
            UAnswer::TooLong(u8) => self.put_u8(unique_answers::TOO_LONG, *u8),
            UAnswer::KeyOf(key) => self.put_key(unique_answers::KEY_OF, key),
        }
    }

    /// Adds what a replica is asked to prepare.
    #[tactic(auto, unfolding(trace_bytes::specs::Operations::rowwork_bytes))]
    pub fn rowwork(&mut self, work: &HeldWork) -> Result<(), NoMemory>
        ensures { OnOk result (self.new ≡ self.old ++ rowwork_bytes work.now) }
    {
        match work.operation() {
            Some(op) => self.put_op(row_works::OPERATE, op),
            None => self.put_key_opt_value(row_works::STORE, work.key(), &work.image()),
        }
    }
}
