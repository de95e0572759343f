//! Operations and their answers.
ghost use Rattle.trace_read.specs.Reading.{Gives};
ghost use Rattle.trace_bytes.specs.Operations.{answer_at, answer_of, op_at, op_of, rowwork_at, rowwork_of, uanswer_at};
ghost use Rattle.trace_bytes.specs.Operations.{uanswer_of};

use crate::input::Input;
use sig_core::{Answer, Op, RowWork, UAnswer};
use trace_bytes::kinds::{answers, operations, row_works, unique_answers};

impl Input<'_> {
    /// An operation.
    #[tactic(auto, unfolding(trace_bytes::specs::Operations::op_at))]
    pub fn op(&mut self) -> Result<Op, usize>
        ensures { Gives result self.new (op_at self.old) }
    {
        let number = self.byte(0, 5)?;
        self.op_of(number)
    }

    #[tactic(auto, unfolding(trace_bytes::specs::Operations::op_of))]
    fn op_of(&mut self, number: u8) -> Result<Op, usize>
        ensures { Gives result self.new (op_of number self.old) }
    {
        match number {
            operations::GET => {
                let key = self.key()?;
                Ok(Op::Get(key))
            }
            operations::GET_X => {
                let key = self.key()?;
                Ok(Op::GetX(key))
            }
            operations::PUT => {
                let key = self.key()?;
                let value = self.value()?;
                Ok(Op::Put(key, value))
            }
            operations::INS => {
                let key = self.key()?;
                let value = self.value()?;
                Ok(Op::Ins(key, value))
            }
            operations::UPD => {
                let key = self.key()?;
                let value = self.value()?;
                Ok(Op::Upd(key, value))
            }
            _ => {
                let key = self.key()?;
                Ok(Op::Del(key))
            }
        }
    }

    /// An answer.
    #[tactic(auto, unfolding(trace_bytes::specs::Operations::answer_at))]
    pub fn answer(&mut self) -> Result<Answer, usize>
        ensures { Gives result self.new (answer_at self.old) }
    {
        let number = self.byte(0, 4)?;
        self.answer_of(number)
    }

    #[tactic(auto, unfolding(trace_bytes::specs::Operations::answer_of))]
    fn answer_of(&mut self, number: u8) -> Result<Answer, usize>
        ensures { Gives result self.new (answer_of number self.old) }
    {
        match number {
            answers::DONE => Ok(Answer::Done),
            answers::FOUND => {
                let value = self.value()?;
                Ok(Answer::Found(value))
            }
            answers::MISSING => Ok(Answer::Missing),
            answers::E626 => Ok(Answer::E626),
            _ => Ok(Answer::E630),
        }
    }

    /// An answer where values are unique.
    #[tactic(auto, unfolding(trace_bytes::specs::Operations::uanswer_at))]
    pub fn uanswer(&mut self) -> Result<UAnswer, usize>
        ensures { Gives result self.new (uanswer_at self.old) }
    {
        let number = self.byte(0, 3)?;
        self.uanswer_of(number)
    }

    #[tactic(auto, unfolding(trace_bytes::specs::Operations::uanswer_of))]
    fn uanswer_of(&mut self, number: u8) -> Result<UAnswer, usize>
        ensures { Gives result self.new (uanswer_of number self.old) }
    {
        match number {
            unique_answers::PLAIN => {
                let answer = self.answer()?;
                Ok(UAnswer::Plain(answer))
            }
            unique_answers::HELD => {
                let key = self.key()?;
                Ok(UAnswer::Held(key))
            }
            unique_answers::TOO_LONG => {
                let u8 = self.u8()?;
                Ok(UAnswer::TooLong(u8))
            }
            _ => {
                let key = self.key()?;
                Ok(UAnswer::KeyOf(key))
            }
        }
    }

    /// What a replica is asked to prepare.
    #[tactic(auto, unfolding(trace_bytes::specs::Operations::rowwork_at))]
    pub fn rowwork(&mut self) -> Result<RowWork, usize>
        ensures { Gives result self.new (rowwork_at self.old) }
    {
        let number = self.byte(0, 1)?;
        self.rowwork_of(number)
    }

    #[tactic(auto, unfolding(trace_bytes::specs::Operations::rowwork_of))]
    fn rowwork_of(&mut self, number: u8) -> Result<RowWork, usize>
        ensures { Gives result self.new (rowwork_of number self.old) }
    {
        match number {
            row_works::OPERATE => {
                let op = self.op()?;
                Ok(RowWork::Operate(op))
            }
            _ => {
                let key = self.key()?;
                let value = self.opt_value()?;
                Ok(RowWork::Store(key, value))
            }
        }
    }
}
