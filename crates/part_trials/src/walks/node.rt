//! The rows and the log of a node, and what was committed of them.

use crate::dice::Dice;
use crate::walks::fault::RunFault;
use crate::walks::plain::Commit;
use frag_store::Store;
use redo_log::Log;
use sig_core::{Journal, Key, Redo, Rows, TxId, Value};
use std::alloc::Global;

/// What a transaction is about to commit, and where its prepare stands in the log.
#[derive(Clone, Copy)]
pub struct Prepared {
    tx: TxId,
    image: Option<Value>,
    position: u64,
}

#[derive(Drop)]
pub struct Node {
    pub rows: Store,
    pub log: Log,
    /// The bytes of the log from its first on.
    pub bytes: Vec<u8>,
    /// Those that the node began with are in it too, as of epoch 0.
    pub commits: Vec<Commit>,
    pub keys: Vec<Key>,
    /// By the place of the key among the keys.
    pub prepared: Vec<Option<Prepared>>,
    pub epoch: u64,
    /// The greatest epoch of a commit.
    pub greatest: u64,
    pub txs: u64,
}

impl Node {
    /// A node with some rows of these many keys.
    pub fn new(alloc: Global, dice: &mut Dice, keys: u64) -> Result<Node, RunFault> {
        let mut node = Node::empty(alloc)?;
        node.fill(dice, keys)?;
        Ok(node)
    }

    fn empty(alloc: Global) -> Result<Node, RunFault> {
        let rows = Store::new(alloc)?;
        let Ok(log) = Log::new(alloc, 1, 0) else {
            return Err(RunFault::NoMemory);
        };
        Ok(Node {
            rows,
            log,
            bytes: Vec::new(alloc),
            commits: Vec::new(alloc),
            keys: Vec::new(alloc),
            prepared: Vec::new(alloc),
            epoch: 1,
            greatest: 0,
            txs: 0,
        })
    }

    fn fill(&mut self, dice: &mut Dice, keys: u64) -> Result<(), RunFault> {
        for number in 0..keys {
            let key = key_of(number)?;
            self.keys.push(key).map_err(|_| RunFault::NoMemory)?;
            self.prepared.push(None).map_err(|_| RunFault::NoMemory)?;
            if dice.roll(3) > 0 {
                self.put(key, value_of(dice.roll(10))?)?;
            }
        }
        Ok(())
    }

    // A row that the node begins with.
    fn put(&mut self, key: Key, value: Value) -> Result<(), RunFault> {
        self.rows.put_row(&key, &value, 0)?;
        let commit = Commit {
            key,
            image: Some(value),
            epoch: 0,
        };
        self.commits.push(commit).map_err(|_| RunFault::NoMemory)
    }

    /// Something goes on at a row.
    pub fn change(&mut self, dice: &mut Dice) -> Result<(), RunFault> {
        if dice.roll(40) == 0 {
            self.epoch = self.epoch.saturating_add(1);
        }
        let count = self.keys.len() as u64;
        if count == 0 {
            return Ok(());
        }
        let at = dice.roll(count) as usize;
        let (Some(key), Some(prepared)) = (
            self.keys.get(at).copied(),
            self.prepared.get(at).copied(),
        ) else {
            return Ok(());
        };
        match prepared {
            None => {
                self.txs = self.txs.saturating_add(1);
                let tx = TxId {
                    tc: 1,
                    start: 0,
                    seq: self.txs,
                };
                self.prepare(dice, at, tx, key)
            }
            Some(prepared) => match dice.roll(4) {
                0 => self.prepare(dice, at, prepared.tx, key),
                1 => self.give_up(at, prepared.tx, key),
                _ => self.commit(dice, at, prepared, key),
            },
        }
    }

    fn prepare(&mut self, dice: &mut Dice, at: usize, tx: TxId, key: Key) -> Result<(), RunFault> {
        let image = if dice.roll(3) == 0 {
            None
        } else {
            Some(value_of(dice.roll(1000))?)
        };
        self.rows.prepare_image(tx, &key, &image)?;
        let position = self.log.end();
        self.record(&Redo::Prepare {
            tx,
            fragment: 0,
            key,
            image,
        })?;
        if at < self.prepared.len() {
            self.prepared[at] = Some(Prepared {
                tx,
                image,
                position,
            });
        }
        Ok(())
    }

    fn give_up(&mut self, at: usize, tx: TxId, key: Key) -> Result<(), RunFault> {
        self.rows.abort(tx, &key);
        if at < self.prepared.len() {
            self.prepared[at] = None;
        }
        self.record(&Redo::Abort { tx, key })
    }

    fn commit(
        &mut self,
        dice: &mut Dice,
        at: usize,
        prepared: Prepared,
        key: Key,
    ) -> Result<(), RunFault> {
        let epoch = self.epoch.saturating_sub(dice.roll(2));
        let tx = prepared.tx;
        self.rows.commit(tx, &key, epoch);
        self.record(&Redo::Commit { tx, epoch, key })?;
        self.rows.complete(tx, &key);
        if at < self.prepared.len() {
            self.prepared[at] = None;
        }
        self.greatest = self.greatest.max(epoch);
        let commit = Commit {
            key,
            image: prepared.image,
            epoch,
        };
        self.commits.push(commit).map_err(|_| RunFault::NoMemory)
    }

    fn record(&mut self, redo: &Redo) -> Result<(), RunFault> {
        self.log.reserve(redo.size())?;
        self.log.append(redo);
        let Some(piece) = self.log.flush_step()? else {
            return Ok(());
        };
        self.bytes
            .extend_from_slice(piece.bytes.as_slice())
            .map_err(|_| RunFault::NoMemory)
    }

    /// The position of the oldest record that is prepared, or else the end of the log.
    pub fn oldest(&self) -> u64 {
        let mut oldest = self.log.end();
        for prepared in &self.prepared {
            if let Some(prepared) = prepared {
                oldest = oldest.min(prepared.position);
            }
        }
        oldest
    }
}

// The key of a number: two letters.
fn key_of(number: u64) -> Result<Key, RunFault> {
    let bytes = [b'A' + (number / 50 % 50) as u8, b'A' + (number % 50) as u8];
    Ok(Key::new(&bytes)?)
}

// The value of a number.
fn value_of(number: u64) -> Result<Value, RunFault> {
    let bytes = [
        b'0' + (number / 100 % 10) as u8,
        b'0' + (number / 10 % 10) as u8,
        b'0' + (number % 10) as u8,
    ];
    Ok(Value::new(&bytes)?)
}
