//! Lists.
ghost use Rattle.std.specs.Prelude.{ℕ, List, Result};
ghost use Rattle.trace_bytes.specs.Lines.{line_at};
ghost use Rattle.trace_bytes.specs.Lists.{list_at};
ghost use Rattle.trace_bytes.specs.Marks.{mark_at};
ghost use Rattle.trace_bytes.specs.Operations.{answered_at};
ghost use Rattle.trace_read.specs.Reading.{GivesOrWants};
ghost use Rattle.trace_bytes.specs.Numbers.{u8_at};
ghost use Rattle.trace_bytes.specs.Words.{change_at, row_at};

use crate::input::Input;
use crate::read::marks::read_mark;
use crate::stop::Stop;
use sig_core::{BatchLine, Change, HeldAnswer, HeldOp, Key, Mark, Seq, Value};
use std::alloc::Global;

/// What stands in lists.
pub trait Readable: Drop {
    ghost reader: { List ℕ → Result (Self × List ℕ) ℕ };

    /// Reads one.
    fn read(alloc: Global, input: &mut Input<'_>) -> Result<Self, Stop>
        ensures { GivesOrWants result input.new (reader input.old) };
}

/// A list: how many items it has, and then these.
///
/// # Errors
/// Where a byte doesn't fit, and want of memory.
#[tactic(auto, unfolding(trace_bytes::specs::Lists::list_at))]
pub fn read_list<T: Readable>(alloc: Global, input: &mut Input<'_>) -> Result<Seq<T>, Stop>
    ensures { GivesOrWants result input.new (list_at T.reader input.old) }
{
    let count = input.u64()?;
    let mut items = Seq::new(alloc);
    'items: for _ in 0..count {
        let item = T::read(alloc, input)?;
        items.push(item)?;
    }
    Ok(items)
}

impl Readable for u8 {
    ghost reader = { u8_at };

    fn read(_alloc: Global, input: &mut Input<'_>) -> Result<u8, Stop> {
        Ok(input.u8()?)
    }
}

impl Readable for (Key, Value) {
    ghost reader = { row_at };

    fn read(_alloc: Global, input: &mut Input<'_>) -> Result<(Key, Value), Stop> {
        Ok(input.row()?)
    }
}

impl Readable for (HeldOp, HeldAnswer) {
    ghost reader = { answered_at };

    #[tactic(auto, unfolding(trace_bytes::specs::Operations::answered_at))]
    fn read(alloc: Global, input: &mut Input<'_>) -> Result<(HeldOp, HeldAnswer), Stop> {
        let op = input.op()?;
        let answer = input.answer()?;
        Ok((HeldOp::new(alloc, op)?, HeldAnswer::new(alloc, &answer)?))
    }
}

impl Readable for Change {
    ghost reader = { change_at };

    fn read(_alloc: Global, input: &mut Input<'_>) -> Result<Change, Stop> {
        Ok(input.change()?)
    }
}

impl Readable for BatchLine {
    ghost reader = { line_at };

    fn read(_alloc: Global, input: &mut Input<'_>) -> Result<BatchLine, Stop> {
        Ok(input.line()?)
    }
}

impl Readable for Mark {
    ghost reader = { mark_at };

    fn read(alloc: Global, input: &mut Input<'_>) -> Result<Mark, Stop> {
        read_mark(alloc, input)
    }
}
