//! The operations of a line.
ghost use Rattle.std.specs.Prelude.{◌≡◌, MatchOption, None, Some};
ghost use Rattle.script_lang.specs.Operation.{op_with, operands, operate, takes_value};
ghost use Rattle.script_lang.specs.Words.{words};

use crate::command::Command;
use crate::fault::LineFault;
use crate::keyword::OpKind;
use crate::words::{one_or_two, one_word};
use sig_core::{Key, Op, Value};

/// Whether a value stands behind the key.
fn takes_value(kind: OpKind) -> bool
    ensures { result ≡ takes_value kind }
{
    match kind {
        OpKind::Put | OpKind::Ins | OpKind::Upd => true,
        OpKind::Get | OpKind::GetX | OpKind::Del => false,
    }
}

/// The words of the key and the value, if there are as many as the operation takes. The value is
/// empty where it is left out.
pub fn operands(kind: OpKind, rest: &[u8]) -> Option<(&[u8], &[u8])>
    ensures { MatchOption result (operands kind (words rest.now) ≡ None)
        (λ both. operands kind (words rest.now) ≡ Some (both.0.now, both.1.now)) }
{
    if takes_value(kind) {
        return one_or_two(rest);
    }
    let key = one_word(rest)?;
    Some((key, &[]))
}

/// The command of an operation, if the words are a key and a value.
pub fn operate(
    name: Option<u16>,
    kind: OpKind,
    key: &[u8],
    value: &[u8],
) -> Result<Command, LineFault>
    ensures { result ≡ operate name kind key.now value.now }
{
    match (Key::new(key), Value::new(value)) {
        (Ok(key), Ok(value)) => Ok(Command::Operate {
            name,
            op: op_with(kind, key, value),
        }),
        _ => Err(LineFault::BadWord),
    }
}

fn op_with(kind: OpKind, key: Key, value: Value) -> Op
    ensures { result ≡ op_with kind key value }
{
    match kind {
        OpKind::Get => Op::Get(key),
        OpKind::GetX => Op::GetX(key),
        OpKind::Put => Op::Put(key, value),
        OpKind::Ins => Op::Ins(key, value),
        OpKind::Upd => Op::Upd(key, value),
        OpKind::Del => Op::Del(key),
    }
}
