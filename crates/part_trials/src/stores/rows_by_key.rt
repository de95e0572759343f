//! What stores of rows have in common.
use frag_store::Store;
use sig_core::{HashedKey, Key, NoMemory, Rows, TxId, Value};
use std::collections::{BTreeMap, HashMap};

/// Values by keys.
pub trait RowsByKey {
    fn put(&mut self, key: &Key, value: &Value) -> Result<(), NoMemory>;

    fn find(&self, key: &Key) -> Option<Value>;

    fn take_out(&mut self, key: &Key) -> Result<(), NoMemory>;
}

impl RowsByKey for BTreeMap<Key, Value> {
    fn put(&mut self, key: &Key, value: &Value) -> Result<(), NoMemory> {
        self.insert(*key, *value)?;
        Ok(())
    }

    fn find(&self, key: &Key) -> Option<Value> {
        self.get(key).copied()
    }

    fn take_out(&mut self, key: &Key) -> Result<(), NoMemory> {
        self.remove(key);
        Ok(())
    }
}

impl RowsByKey for HashMap<Key, Value> {
    fn put(&mut self, key: &Key, value: &Value) -> Result<(), NoMemory> {
        self.insert(*key, *value)?;
        Ok(())
    }

    fn find(&self, key: &Key) -> Option<Value> {
        self.get(key).copied()
    }

    fn take_out(&mut self, key: &Key) -> Result<(), NoMemory> {
        self.remove(key);
        Ok(())
    }
}

impl RowsByKey for Store {
    fn put(&mut self, key: &Key, value: &Value) -> Result<(), NoMemory> {
        self.put_row(key, value, 1)
    }

    fn find(&self, key: &Key) -> Option<Value> {
        self.row(key).copied()
    }

    fn take_out(&mut self, key: &Key) -> Result<(), NoMemory> {
        // By a transaction, which commits and is done.
        let tx = TxId {
            tc: 1,
            start: 0,
            seq: 1,
        };
        self.make_room(&HashedKey::new(key))?;
        let _answer = self.prepare_image(tx, key, &None);
        self.commit(tx, key, 2);
        self.complete(tx, key);
        Ok(())
    }
}
