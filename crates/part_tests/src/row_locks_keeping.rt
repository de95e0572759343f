//! Who goes on holding locks.
ghost use Rattle.std.specs.Prelude.{nat_eq};

use crate::wrong::Wrong;
use row_locks::{Keeper, Lock, LockTable, Mode};
use sig_core::{Key, TxId};

// The transaction of this number alone.
#[derive(Drop)]
struct Only(u64);

impl Keeper for Only {
    ghost keeps = { λ only key tx. nat_eq tx.seq only.0 };

    fn keeps(&self, _key: &Key, tx: TxId) -> bool {
        tx.seq == self.0
    }
}

fn tx(seq: u64) -> TxId {
    TxId {
        tc: 1,
        start: 0,
        seq,
    }
}

// Whether a request is granted, or queued behind this one.
fn asks(table: &mut LockTable, seq: u64, key: &Key, mode: Mode, behind: Option<u64>) -> bool {
    match (table.request(tx(seq), key, mode), behind) {
        (Ok(Lock::Granted), None) => true,
        (Ok(Lock::Queued { ahead }), Some(first)) => ahead == tx(first),
        _ => false,
    }
}

fn holds(table: &LockTable, key: &Key, at: usize, seq: u64) -> bool {
    table.holder(key, at) == Some(tx(seq))
}

#[test]
fn one_of_two_goes_on_holding(rt: HostRuntime) -> Result<(), Wrong> {
    let mut table = LockTable::new(rt.alloc())?;
    let a = Key::new(b"a")?;
    assert!(rt; asks(&mut table, 1, &a, Mode::Shared, None));
    assert!(rt; asks(&mut table, 2, &a, Mode::Shared, None));
    table.keep(&Only(1));
    assert!(rt; holds(&table, &a, 0, 1) && table.holder(&a, 1).is_none());
    Ok(())
}

#[test]
fn nobody_goes_on_waiting(rt: HostRuntime) -> Result<(), Wrong> {
    let mut table = LockTable::new(rt.alloc())?;
    let a = Key::new(b"a")?;
    assert!(rt; asks(&mut table, 1, &a, Mode::Exclusive, None));
    assert!(rt; asks(&mut table, 2, &a, Mode::Exclusive, Some(1)));
    table.keep(&Only(2));
    assert!(rt; table.holder(&a, 0).is_none() && table.ahead(tx(2), &a).is_none());
    Ok(())
}
