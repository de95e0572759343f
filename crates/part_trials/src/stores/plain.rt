//! Rows as they are defined: two lists, and what each call makes of them.
use crate::stores::call::{Call, Outcome, RowAt, Told};
use sig_core::{Answer, Key, NoMemory, Op, PLACES, PendingRecord, RowsFault, Slot, TxId, Value};
use std::alloc::Global;

/// The places and the records of `Rows`, each call of which goes through them from the first on.
#[derive(Drop)]
pub struct Plain {
    places: Vec<Option<Slot>>,
    records: Vec<PendingRecord>,
}

impl Plain {
    /// No rows.
    pub fn new(alloc: Global) -> Plain {
        Plain {
            places: Vec::new(alloc),
            records: Vec::new(alloc),
        }
    }

    /// Makes a call, and tells of its key.
    ///
    /// # Errors
    /// `NoMemory`.
    pub fn tell(
        &mut self,
        tx: TxId,
        key: &Key,
        call: Call,
        value: &Value,
        epoch: u64,
    ) -> Result<Told, NoMemory> {
        let outcome = self.make(tx, key, call, value, epoch)?;
        let slot = self.slot(key);
        let record = self.record(tx, key);
        Ok(Told {
            outcome,
            row: row_in(&slot),
            epoch: epoch_in(&slot),
            seen: seen_by(&slot, &record),
            state: state_by(&record),
            records: self.records.len(),
        })
    }

    /// The records, the oldest first.
    pub fn records(&self) -> &[PendingRecord] {
        self.records.as_slice()
    }

    /// The row at the least place at or above this one that has one.
    pub fn row_from(&self, from: u64) -> Option<RowAt> {
        for (at, place) in self.places.iter().enumerate() {
            if at as u64 >= from {
                let row = row_at(at as u64, place);
                if row.is_some() {
                    return row;
                }
            }
        }
        None
    }

    fn make(
        &mut self,
        tx: TxId,
        key: &Key,
        call: Call,
        value: &Value,
        epoch: u64,
    ) -> Result<Outcome, NoMemory> {
        match call {
            Call::Room => Ok(Outcome::Done),
            Call::Insert => self.prepare(tx, &Op::Ins(*key, *value)),
            Call::Update => self.prepare(tx, &Op::Upd(*key, *value)),
            Call::Delete => self.prepare(tx, &Op::Del(*key)),
            Call::Read => self.prepare(tx, &Op::Get(*key)),
            Call::Write => self.write(tx, key, &Some(*value), Outcome::Done),
            Call::Erase => self.write(tx, key, &None, Outcome::Done),
            Call::Put => {
                if self.place_of(key).is_none() {
                    self.take_place(key)?;
                }
                self.set_row(key, &Some(*value), epoch);
                Ok(Outcome::Done)
            }
            Call::Commit => {
                self.commit(tx, key, epoch);
                Ok(Outcome::Done)
            }
            Call::Abort => {
                self.drop_record(tx, key, false);
                Ok(Outcome::Done)
            }
            Call::Complete => {
                self.drop_record(tx, key, true);
                Ok(Outcome::Done)
            }
        }
    }

    fn place_of(&self, key: &Key) -> Option<usize> {
        self.places.iter().position(|place| is_at(place, key))
    }

    fn slot(&self, key: &Key) -> Option<Slot> {
        match self.places.get(self.place_of(key)?) {
            Some(place) => *place,
            None => None,
        }
    }

    fn record_at(&self, tx: TxId, key: &Key) -> Option<usize> {
        self.records
            .iter()
            .position(|record| record.tx == tx && record.key == *key)
    }

    fn record(&self, tx: TxId, key: &Key) -> Option<PendingRecord> {
        self.records.get(self.record_at(tx, key)?).copied()
    }

    fn prepare(&mut self, tx: TxId, op: &Op) -> Result<Outcome, NoMemory> {
        let seen = seen_by(&self.slot(op.key()), &self.record(tx, op.key()));
        let answer = op.answer_to(&seen);
        if answer == Answer::Done {
            self.write(tx, op.key(), &op.image(), Outcome::Answered(Answer::Done))
        } else {
            Ok(Outcome::Answered(answer))
        }
    }

    // Makes or replaces the transaction's record on the key, and answers as is said, unless the places are
    // full.
    fn write(
        &mut self,
        tx: TxId,
        key: &Key,
        image: &Option<Value>,
        outcome: Outcome,
    ) -> Result<Outcome, NoMemory> {
        if self.place_of(key).is_none() {
            let taken = self.places.iter().filter(|place| place.is_some()).count();
            if taken >= PLACES {
                return Ok(Outcome::Refused(RowsFault::Full { rows: taken as u64 }));
            }
            self.take_place(key)?;
        }
        let record = PendingRecord {
            tx,
            key: *key,
            image: *image,
            committed: false,
            epoch: 0,
        };
        match self.record_at(tx, key) {
            Some(at) => self.set_record(at, record),
            None => self.records.push(record)?,
        }
        Ok(outcome)
    }

    // A key that has no place gets the least free one.
    fn take_place(&mut self, key: &Key) -> Result<(), NoMemory> {
        let slot = Slot {
            key: *key,
            row: None,
            epoch: 0,
        };
        match self.places.iter().position(|place| place.is_none()) {
            Some(at) => self.set_place(at, Some(slot)),
            None => self.places.push(Some(slot))?,
        }
        Ok(())
    }

    fn set_place(&mut self, at: usize, place: Option<Slot>) {
        if at < self.places.len() {
            self.places[at] = place;
        }
    }

    fn set_record(&mut self, at: usize, record: PendingRecord) {
        if at < self.records.len() {
            self.records[at] = record;
        }
    }

    // This is the row of a key that has a place, of this epoch; of no row no epoch is kept.
    fn set_row(&mut self, key: &Key, row: &Option<Value>, epoch: u64) {
        if let Some(at) = self.place_of(key) {
            let slot = Slot {
                key: *key,
                row: *row,
                epoch: if row.is_some() { epoch } else { 0 },
            };
            self.set_place(at, Some(slot));
        }
    }

    fn commit(&mut self, tx: TxId, key: &Key, epoch: u64) {
        let Some(at) = self.record_at(tx, key) else {
            return;
        };
        if at >= self.records.len() || self.records[at].committed {
            return;
        }
        let image = self.records[at].image;
        self.set_row(key, &image, epoch);
        let done = PendingRecord {
            tx,
            key: *key,
            image,
            committed: true,
            epoch,
        };
        self.set_record(at, done);
    }

    // A record that is committed, or isn't, as is asked, is dropped. A place whose key then has no row and
    // no record is free again.
    fn drop_record(&mut self, tx: TxId, key: &Key, committed: bool) {
        let Some(at) = self.record_at(tx, key) else {
            return;
        };
        if at >= self.records.len() || self.records[at].committed != committed {
            return;
        }
        self.records.remove(at);
        let idle = !self.records.iter().any(|record| record.key == *key);
        if idle && row_in(&self.slot(key)).is_none() {
            if let Some(at) = self.place_of(key) {
                self.set_place(at, None);
            }
        }
    }
}

fn is_at(place: &Option<Slot>, key: &Key) -> bool {
    match place {
        Some(slot) => slot.key == *key,
        None => false,
    }
}

// The row of a place, if it has one.
fn row_at(at: u64, place: &Option<Slot>) -> Option<RowAt> {
    match place {
        Some(slot) => match slot.row {
            Some(value) => Some(RowAt {
                at,
                key: slot.key,
                value,
                epoch: Some(slot.epoch),
            }),
            None => None,
        },
        None => None,
    }
}

fn row_in(slot: &Option<Slot>) -> Option<Value> {
    match slot {
        Some(slot) => slot.row,
        None => None,
    }
}

// Of no row no epoch is told.
fn epoch_in(slot: &Option<Slot>) -> Option<u64> {
    match slot {
        Some(slot) if slot.row.is_some() => Some(slot.epoch),
        _ => None,
    }
}

// The transaction's own image of the row, else the row.
fn seen_by(slot: &Option<Slot>, record: &Option<PendingRecord>) -> Option<Value> {
    match record {
        Some(record) => record.image,
        None => row_in(slot),
    }
}

fn state_by(record: &Option<PendingRecord>) -> Option<bool> {
    match record {
        Some(record) => Some(record.committed),
        None => None,
    }
}
