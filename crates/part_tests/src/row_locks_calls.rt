//! Pseudo-random calls: after each, the table and the plain program answer alike, and show the same
//! holders and waiters.
ghost use Rattle.std.specs.Prelude.{◌<◌};

use crate::row_locks_definition::PlainLock;
use crate::wrong::Wrong;
use row_locks::{Lock, LockTable, Mode};
use sig_core::{Key, TxId};
use std::alloc::Global;

const CALLS: u64 = 4000;

const TRANSACTIONS: u64 = 12;

const KEYS: u64 = 3;

// Transaction `n`, from 0, which is of the copying of rows. Any two differ, some in one part alone.
fn tx(n: u64) -> TxId {
    TxId {
        tc: if n == 0 { 0 } else { 1 + (n % 2) as u8 },
        start: (n % 3) as u32,
        seq: n / 6,
    }
}

// A linear congruential generator, with the constants of MMIX.
#[derive(Drop)]
struct Random(u64);

impl Random {
    // A number below `bound`.
    fn below(&mut self, bound: u64) -> u64
        requires { 0 < bound }
    {
        self.0 = self
            .0
            .wrapping_mul(6364136223846793005)
            .wrapping_add(1442695040888963407);
        (self.0 >> 33) % bound
    }
}

// A key, and its lock as the plain program has it.
#[derive(Drop)]
struct PlainRow {
    key: Key,
    lock: PlainLock,
}

// The table and the plain program, and what came of their calls.
#[derive(Drop)]
struct Both {
    table: LockTable,
    // In byte order of the keys.
    rows: Vec<PlainRow>,
    most_granted: usize,
    expired: bool,
}

impl Both {
    fn new(alloc: Global) -> Result<Both, Wrong> {
        let mut rows = Vec::new(alloc);
        for word in [b"a".as_slice(), b"ab", b"b"] {
            rows.push(PlainRow {
                key: Key::new(word)?,
                lock: PlainLock::new(alloc),
            })?;
        }
        Ok(Both {
            table: LockTable::new(alloc)?,
            rows,
            most_granted: 0,
            expired: false,
        })
    }

    // Makes a call on both, and says whether they answer alike.
    fn call(&mut self, random: &mut Random) -> Result<bool, Wrong> {
        match random.below(200) {
            0 => self.unwait_all(),
            1..=30 => self.age_round(),
            kind => return self.call_at_key(kind, random),
        }
        Ok(true)
    }

    fn unwait_all(&mut self) {
        self.table.unwait_all();
        for row in &mut self.rows {
            row.lock.unwait_all();
        }
    }

    fn age_round(&mut self) {
        self.table.age_round();
        for row in &mut self.rows {
            row.lock.age_round();
        }
    }

    fn call_at_key(&mut self, kind: u64, random: &mut Random) -> Result<bool, Wrong> {
        let at = random.below(KEYS) as usize;
        let tx = tx(random.below(TRANSACTIONS));
        let Some(row) = self.rows.get_mut(at) else {
            return Ok(false);
        };
        match kind {
            31..=70 => {
                let granted = row.lock.release(tx)?;
                self.most_granted = self.most_granted.max(granted);
                Ok(self.table.release(tx, &row.key) == granted)
            }
            71..=90 => Ok(row.lock.unwait(tx)? == self.table.unwait(tx, &row.key)),
            _ => request(&mut self.table, row, tx, mode_of(kind)),
        }
    }

    // Whether they show the same.
    fn compare(&mut self) -> bool {
        for row in self.rows.as_slice() {
            if !have_same_holders(&self.table, row) || !have_same_waiters(&self.table, row) {
                return false;
            }
        }
        let expired = first_expired(self.rows.as_slice());
        self.expired = self.expired || expired.is_some();
        expired_of(&self.table) == expired
    }
}

fn mode_of(kind: u64) -> Mode {
    if kind % 3 == 0 {
        Mode::Exclusive
    } else {
        Mode::Shared
    }
}

fn request(table: &mut LockTable, row: &mut PlainRow, tx: TxId, mode: Mode) -> Result<bool, Wrong> {
    let granted = row.lock.request(tx, mode)?;
    Ok(match table.request(tx, &row.key, mode)? {
        Lock::Granted => granted,
        Lock::Queued { ahead } => !granted && row.lock.ahead(tx) == Some(ahead),
    })
}

fn have_same_holders(table: &LockTable, row: &PlainRow) -> bool {
    for i in 0..=row.lock.holder_count() {
        if table.holder(&row.key, i) != row.lock.holder(i) {
            return false;
        }
    }
    true
}

fn have_same_waiters(table: &LockTable, row: &PlainRow) -> bool {
    for n in 0..TRANSACTIONS {
        if table.ahead(tx(n), &row.key) != row.lock.ahead(tx(n)) {
            return false;
        }
    }
    true
}

fn expired_of(table: &LockTable) -> Option<(TxId, Key)> {
    match table.expired() {
        Some((tx, key)) => Some((tx, *key)),
        None => None,
    }
}

fn first_expired(rows: &[PlainRow]) -> Option<(TxId, Key)> {
    for row in rows {
        if let Some(tx) = row.lock.expired() {
            return Some((tx, row.key));
        }
    }
    None
}

#[test]
fn calls_do_as_the_plain_program(rt: HostRuntime) -> Result<(), Wrong> {
    for seed in 1..5 {
        let mut random = Random(seed);
        let mut both = Both::new(rt.alloc())?;
        for _ in 0..CALLS {
            assert!(rt; both.call(&mut random)?);
            assert!(rt; both.compare());
        }
        assert!(rt; 2 < both.most_granted);
        assert!(rt; both.expired);
    }
    Ok(())
}
