//! The serial model: what one client alone would see of a table of rows.
#![tactic(auto)]

ghost use Rattle.std.specs.Prelude.{◌≡◌, IfOk, OnOk, OnErr};
ghost use Rattle.std.specs.FinMap as map;
ghost use Rattle.serial_model.specs.Serial.{perform};

mod epoch;
mod legal;
mod legal_laws;

pub use epoch::cut_to_epoch;
pub use legal::{ReplayFault, replay};
pub use legal_laws::legal_lists_have_no_difference;
use sig_core::{Answer, Key, NoMemory, Op, Table, Value};

/// Performs one operation on a table.
///
/// # Errors
/// `NoMemory`, and then the table is as it was.
pub fn do_op(table: &mut Table, op: &Op) -> Result<Answer, NoMemory>
    ensures answer { IfOk result (λ answer. answer ≡ (perform op.now table.old).answer) }
    ensures rows { OnOk result (table.new ≡ (perform op.now table.old).rows) }
    ensures err { OnErr result (table.new ≡ table.old) }
{
    let before = table.get(op.key());
    match (op, before) {
        (Op::Get(_) | Op::GetX(_), Some(value)) => Ok(Answer::Found(value)),
        (Op::Get(_) | Op::GetX(_), None) => Ok(Answer::Missing),
        (Op::Put(key, value), _) | (Op::Ins(key, value), None) | (Op::Upd(key, value), Some(_)) => {
            store(table, key, value)
        }
        (Op::Ins(..), Some(_)) => Ok(Answer::E630),
        (Op::Upd(..) | Op::Del(_), None) => Ok(Answer::E626),
        (Op::Del(key), Some(_)) => {
            table.remove(key);
            Ok(Answer::Done)
        }
    }
}

// A write that takes effect.
fn store(table: &mut Table, key: &Key, value: &Value) -> Result<Answer, NoMemory>
    ensures answer { IfOk result (λ answer. answer ≡ Answer.Done) }
    ensures rows { OnOk result (table.new ≡ map.insert table.old key.now value.now) }
    ensures err { OnErr result (table.new ≡ table.old) }
{
    table.insert(*key, *value)?;
    Ok(Answer::Done)
}
