//! The records of replicas: what transactions make of rows.
ghost use Rattle.std.specs.Prelude.{◌<◌, IfSome, length};

use crate::client::Client;
use crate::facts::Facts;
use crate::law::{Fault, Law};
use crate::moment::Moment;
use sig_core::{Body, ChainSignal, Entry, HeldWork, Key, Mark, Signal, TxId, Value};
use std::alloc::Global;

/// What a replica holds of a transaction on a row. No image is a deletion.
#[derive(Clone, Copy)]
pub struct Record {
    pub host: u32,
    pub tx: TxId,
    pub key: Key,
    image: Option<Value>,
}

/// What a cut tells of records.
#[derive(Drop)]
pub struct Records {
    /// What replicas were asked to hold, in the order of each.
    requests: Vec<Record>,
    /// What they hold: it was prepared, and they aren't done with it.
    pub held: Vec<Record>,
    /// The transactions of the answers that coordinators had of replicas.
    answered: Vec<TxId>,
}

impl Records {
    /// None yet.
    pub fn new(alloc: Global) -> Records {
        Records {
            requests: Vec::new(alloc),
            held: Vec::new(alloc),
            answered: Vec::new(alloc),
        }
    }

    /// A signal that was taken.
    ///
    /// # Errors
    /// `NoMemory`.
    pub fn add_signal(&mut self, moment: &Moment, signal: &Signal) -> Result<(), Fault> {
        if let Body::Chain(body) = &signal.body {
            self.add_body(moment.host, body)?;
        }
        Ok(())
    }

    fn add_body(&mut self, host: u32, body: &ChainSignal) -> Result<(), Fault> {
        match body {
            ChainSignal::LqhKeyReq {
                tx,
                work,
                chain: _,
                at: _,
            } => self.request(host, tx, work),
            ChainSignal::LqhKeyConf {
                tx,
                key: _,
                answer: _,
            } => self.answer(tx),
            _ => Ok(()),
        }
    }

    fn request(&mut self, host: u32, tx: &TxId, work: &HeldWork) -> Result<(), Fault> {
        self.requests.push(Record {
            host,
            tx: *tx,
            key: *work.key(),
            image: work.image(),
        })?;
        Ok(())
    }

    fn answer(&mut self, tx: &TxId) -> Result<(), Fault> {
        self.answered.push(*tx)?;
        Ok(())
    }

    /// A mark of a step.
    ///
    /// # Errors
    /// `NoMemory`.
    pub fn add_mark(&mut self, moment: &Moment, mark: &Mark) -> Result<(), Fault> {
        match mark {
            Mark::Prepared { tx, key } => self.prepare(moment.host, tx, key),
            Mark::Done { tx, key } => {
                self.end(moment.host, tx, key);
                Ok(())
            }
            _ => Ok(()),
        }
    }

    // What the replica was asked for last is held in place of what it held.
    fn prepare(&mut self, host: u32, tx: &TxId, key: &Key) -> Result<(), Fault> {
        self.end(host, tx, key);
        let image = image_of(self.requests.as_slice(), host, tx, key);
        self.held.push(Record {
            host,
            tx: *tx,
            key: *key,
            image,
        })?;
        Ok(())
    }

    fn end(&mut self, host: u32, tx: &TxId, key: &Key) {
        if let Some(at) = place_of(self.held.as_slice(), host, tx, key) {
            self.held.remove(at);
        }
    }

    // How many answers of the transaction its coordinator had.
    fn answers(&self, tx: &TxId) -> u64 {
        let mut count = 0u64;
        for answered in self.answered.as_slice() {
            if answered == tx {
                count = count.saturating_add(1);
            }
        }
        count
    }

    // Whether the last operation of the transaction is on the key, and its coordinator has no answer.
    fn is_unanswered(&self, client: &Client, tx: &TxId, key: &Key) -> bool {
        let mut count = 0u64;
        let mut is_last = false;
        for asked in client.asked.as_slice() {
            if asked.tx == *tx {
                count = count.saturating_add(1);
                is_last = asked.op.key() == key;
            }
        }
        is_last && self.answers(tx) < count
    }
}

// Whether the record is that of a host of a transaction on a row.
fn is_part(record: &Record, host: u32, tx: &TxId, key: &Key) -> bool {
    record.host == host && record.tx == *tx && record.key == *key
}

// The image of the last of these records that is that of a host of a transaction on a row.
fn image_of(records: &[Record], host: u32, tx: &TxId, key: &Key) -> Option<Value> {
    let mut image = None;
    for record in records {
        if is_part(record, host, tx, key) {
            image = record.image;
        }
    }
    image
}

// The place of the first such record.
fn place_of(records: &[Record], host: u32, tx: &TxId, key: &Key) -> Option<usize>
    ensures { IfSome result (λ at. at < length records.now) }
{
    for at in 0..records.len() {
        if is_part(&records[at], host, tx, key) {
            return Some(at);
        }
    }
    None
}

/// Judges the records of a cut: two replicas hold the same image of a transaction's write of a row, but
/// where an operation of it on that row is unanswered, or where it isn't in this history, of the life.
///
/// # Errors
/// `ImagesAgree`, where it is broken.
pub fn judge_records(facts: &Facts, history: &[Entry]) -> Result<(), Fault> {
    for one in facts.records.held.as_slice() {
        if is_split(facts, history, one) {
            return Err(Fault::Broken(Law::ImagesAgree));
        }
    }
    Ok(())
}

fn is_split(facts: &Facts, history: &[Entry], one: &Record) -> bool {
    has_other(facts.records.held.as_slice(), one)
        && is_in(history, &one.tx)
        && !facts
            .records
            .is_unanswered(&facts.client, &one.tx, &one.key)
}

// Whether there is a record of the same transaction on the same row with another image.
fn has_other(held: &[Record], one: &Record) -> bool {
    for other in held {
        if one.tx == other.tx && one.key == other.key && one.image != other.image {
            return true;
        }
    }
    false
}

fn is_in(history: &[Entry], tx: &TxId) -> bool {
    for entry in history {
        if entry.tx == *tx {
            return true;
        }
    }
    false
}
