//! Answers as signals carry them.
ghost use Rattle.std.specs.Prelude.{◌≡◌, IfOk, None};
ghost use Rattle.sig_core.specs.declared.op.Answer.TheVariants as answer;
ghost use Rattle.sig_core.specs.HeldAnswer.{answer_by};

use crate::held::Held;
use crate::no_memory::NoMemory;
use crate::op::Answer;
use crate::value::Value;
use std::alloc::Global;
use std::marker::Model;

/// An answer without a value.
#[derive(Clone, Copy)]
enum Plain {
    Done,
    Missing,
    E626,
    E630,
}

/// An answer that takes little room: a value that was found is on the heap, and held by all that
/// tell it. Contracts see the answer.
#[derive(Drop)]
pub struct HeldAnswer {
    found: Option<Held<Value>>,
    /// What it is where no value was found.
    plain: Plain,
}

impl Model for HeldAnswer {
    ghost use Rattle.sig_core.specs.declared.op.Answer.{Answer};
    ghost use Rattle.sig_core.specs.HeldAnswer.{answer_by};

    ghost Value = { Answer };

    ghost view = { λ a. answer_by a.found a.plain };
}

impl HeldAnswer {
    /// Holds an answer.
    ///
    /// # Errors
    /// `NoMemory`.
    pub fn new(alloc: Global, answer: &Answer) -> Result<HeldAnswer, NoMemory>
        ensures { IfOk result (λ held. held ≡ answer.now) }
    {
        match answer {
            Answer::Done => Ok(without_value(Plain::Done)),
            Answer::Found(value) => Ok(HeldAnswer {
                found: Some(Held::new(alloc, *value)?),
                plain: Plain::Done,
            }),
            Answer::Missing => Ok(without_value(Plain::Missing)),
            Answer::E626 => Ok(without_value(Plain::E626)),
            Answer::E630 => Ok(without_value(Plain::E630)),
        }
    }

    /// That a write took effect. Takes no memory.
    pub fn done() -> HeldAnswer
        ensures { result ≡ answer.Done }
    {
        without_value(Plain::Done)
    }

    /// The answer.
    pub fn get(&self) -> Answer
        ensures { result ≡ self.now }
    {
        match (&self.found, self.plain) {
            (Some(value), _) => Answer::Found(*value.get()),
            (None, Plain::Done) => Answer::Done,
            (None, Plain::Missing) => Answer::Missing,
            (None, Plain::E626) => Answer::E626,
            (None, Plain::E630) => Answer::E630,
        }
    }

    /// Holds the same answer once more.
    ///
    /// # Errors
    /// `NoMemory` where its value is held 2^63 - 1 times.
    pub fn share(&self) -> Result<HeldAnswer, NoMemory>
        ensures { IfOk result (λ held. held ≡ self.now) }
    {
        match &self.found {
            Some(value) => Ok(HeldAnswer {
                found: Some(value.share()?),
                plain: self.plain,
            }),
            None => Ok(without_value(self.plain)),
        }
    }
}

// An answer without a value.
fn without_value(plain: Plain) -> HeldAnswer
    ensures { result ≡ answer_by None plain }
{
    HeldAnswer { found: None, plain }
}
