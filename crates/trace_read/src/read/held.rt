//! What was read, as signals hold it.
ghost use Rattle.std.specs.Prelude.{◌≡◌, IfOk};
ghost use Rattle.sig_core.specs.Op.{image_of, key_of};
ghost use Rattle.trace_bytes.specs.Operations.{rowwork_at};
ghost use Rattle.trace_read.specs.Reading.{GivesOrWants};

use crate::input::Input;
use crate::stop::Stop;
use sig_core::{Held, HeldOp, HeldWork, Key, NoMemory, Op, RowWork, Value};
use std::alloc::Global;

/// Work on a row.
///
/// # Errors
/// Where a byte doesn't fit, and want of memory.
#[tactic(auto, using(crate::proofs::Stops::stops))]
pub fn read_row_work(alloc: Global, input: &mut Input<'_>) -> Result<HeldWork, Stop>
    ensures { GivesOrWants result input.new (rowwork_at input.old) }
{
    let work = input.rowwork()?;
    match &work {
        RowWork::Operate(op) => Ok(HeldWork::operate(HeldOp::new(alloc, *op)?)),
        RowWork::Store(key, image) => {
            let op = storing(key, image);
            Ok(HeldWork::store(HeldOp::new(alloc, op)?))
        }
    }
}

// An operation that makes this image of the row of the key.
fn storing(key: &Key, image: &Option<Value>) -> Op
    ensures key { key_of result ≡ key.now }
    ensures image { image_of result ≡ image.now }
{
    match image {
        Some(value) => Op::Put(*key, *value),
        None => Op::Del(*key),
    }
}

/// A row or none.
///
/// # Errors
/// `NoMemory`.
pub fn held_row(
    alloc: Global,
    row: Option<(Key, Value)>,
) -> Result<Option<Held<(Key, Value)>>, NoMemory>
    ensures { IfOk result (λ held. held ≡ row) }
{
    match row {
        Some(row) => Ok(Some(Held::new(alloc, row)?)),
        None => Ok(None),
    }
}
