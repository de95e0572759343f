//! What a replica is asked to prepare.
ghost use Rattle.std.specs.Prelude.{◌≡◌};
ghost use Rattle.sig_core.specs.Same.{same_key, same_tx};
ghost use Rattle.lqh_block.specs.Work.{is_for, op_mode, work_mode};

use crate::request::Request;
use row_locks::Mode;
use sig_core::{HeldWork, Key, Op, TxId};

/// How the row is locked for it.
pub fn work_mode(work: &HeldWork) -> Mode
    ensures { result ≡ work_mode work.now }
{
    match work.operation() {
        Some(op) => op_mode(op),
        None => Mode::Exclusive,
    }
}

fn op_mode(op: &Op) -> Mode
    ensures { result ≡ op_mode op.now }
{
    match op {
        Op::Get(_) => Mode::Shared,
        _ => Mode::Exclusive,
    }
}

/// Whether the request is the transaction's for this key.
pub fn is_for(tx: TxId, key: &Key, request: &Request) -> bool
    ensures { result ≡ is_for tx key.now request.now }
{
    same_tx(request.tx, tx) && same_key(request.work.key(), key)
}

/// Whether the two are one transaction.
pub fn same_tx(one: TxId, other: TxId) -> bool
    ensures { result ≡ same_tx one other }
{
    one.tc == other.tc && one.start == other.start && one.seq == other.seq
}

/// Whether the two are one key.
pub fn same_key(one: &Key, other: &Key) -> bool
    ensures { result ≡ same_key one.now other.now }
{
    *one == *other
}
