//! Records as bytes.
ghost use Rattle.std.specs.Prelude.{◌≡◌, ◌+◌, ◌<◌, ◌≤◌, ◌++◌, take, length, OnOk, OnErr, vec_len, vec_capacity};
ghost use Rattle.sig_core.specs.Redo.{image_size, size_of};
ghost use Rattle.sig_core.specs.Redo.{bytes_of, head, word, flag, image_bytes};

use sig_core::{Key, NoMemory, Redo, TxId, Value};

/// The bytes of the longest record.
const RECORD_BYTES: usize = 252;

/// The bytes that a record takes, 18 to 252.
pub fn size_of(rec: &Redo) -> u64
    ensures size { result ≡ size_of rec.now }
    ensures most { result ≤ 252 }
{
    rec.size()
}

/// Puts the bytes of a record behind those of `out`. Only a record in the grammar is read back: its
/// coordinator is a node from 1 to 8, and the fragment of a `Prepare` is below 32.
///
/// # Errors
/// `NoMemory`, only where `out` has no room for them without more; then it is as it was.
pub fn encode(rec: &Redo, out: &mut Vec<u8>) -> Result<(), NoMemory>
    ensures appended { OnOk result (out.new.items ≡ out.old.items ++ bytes_of rec.now) }
    ensures err { OnErr result (out.new.items ≡ out.old.items) }
    ensures full { OnErr result (vec_capacity out.old < vec_len out.old + size_of rec.now) }
    ensures capacity { vec_capacity out.old ≤ vec_capacity out.new }
    ensures len { length (bytes_of rec.now) ≡ size_of rec.now }
{
    let mut record = Record::new();
    record.put(rec);
    out.extend_from_slice(record.bytes())?;
    Ok(())
}

/// The bytes of a record as far as it is written.
#[derive(Drop)]
struct Record {
    room: [u8; RECORD_BYTES],
    len: usize,
}

impl Record {
    fn new() -> Record
        ensures { result.len ≡ 0 }
    {
        Record {
            room: [0; RECORD_BYTES],
            len: 0,
        }
    }

    fn bytes(&self) -> &[u8]
        requires { self.now.len ≤ RECORD_BYTES }
        ensures value { result.now ≡ take self.now.len self.now.room }
        ensures len { length result.now ≡ self.now.len }
    {
        &self.room[..self.len]
    }

    /// Puts bytes behind those that are written.
    fn add(&mut self, bytes: &[u8])
        requires { self.old.len + length bytes.now ≤ RECORD_BYTES }
        ensures len { self.new.len ≡ self.old.len + length bytes.now }
        ensures bytes { take self.new.len self.new.room ≡ take self.old.len self.old.room ++ bytes.now }
    {
        let end = self.len + bytes.len();
        self.room[self.len..end].copy_from_slice(bytes);
        self.len = end;
    }

    #[tactic(auto, unfolding(sig_core::specs::Redo::bytes_of))]
    fn put(&mut self, rec: &Redo)
        requires { self.old.len ≡ 0 }
        ensures len { self.new.len ≡ size_of rec.now }
        ensures most { self.new.len ≤ RECORD_BYTES }
        ensures bytes { take self.new.len self.new.room ≡ bytes_of rec.now }
    {
        let size = rec.size();
        match rec {
            Redo::Prepare {
                tx,
                fragment,
                key,
                image,
            } => {
                self.put_head(1, size, *tx);
                self.add(&[*fragment, flag_of(image)]);
                self.put_key(key);
                self.put_image(image);
            }
            Redo::Commit { tx, epoch, key } => {
                self.put_head(2, size, *tx);
                self.add(&epoch.to_be_bytes());
                self.put_key(key);
            }
            Redo::Abort { tx, key } => {
                self.put_head(3, size, *tx);
                self.put_key(key);
            }
        }
    }

    fn put_head(&mut self, kind: u8, size: u64, tx: TxId)
        requires size { size ≤ 252 }
        requires empty { self.old.len ≡ 0 }
        ensures len { self.new.len ≡ 16 }
        ensures bytes { take self.new.len self.new.room ≡ head kind size tx }
    {
        self.add(&[kind]);
        self.add(&(size as u16).to_be_bytes());
        self.add(&[tx.tc]);
        self.add(&tx.start.to_be_bytes());
        self.add(&tx.seq.to_be_bytes());
    }

    fn put_key(&mut self, key: &Key)
        requires { self.old.len ≤ 24 }
        ensures len { self.new.len ≡ self.old.len + 1 + length key.now }
        ensures most { self.new.len ≤ self.old.len + 33 }
        ensures bytes { take self.new.len self.new.room ≡ take self.old.len self.old.room ++ word key.now }
    {
        self.add(&[key.bytes().len() as u8]);
        self.add(key.bytes());
    }

    fn put_image(&mut self, image: &Option<Value>)
        requires { self.old.len ≤ 51 }
        ensures len { self.new.len ≡ self.old.len + image_size image.now }
        ensures most { self.new.len ≤ RECORD_BYTES }
        ensures bytes { take self.new.len self.new.room ≡ take self.old.len self.old.room ++ image_bytes image.now }
    {
        if let Some(value) = image {
            self.add(&[value.bytes().len() as u8]);
            self.add(value.bytes());
        }
    }
}

// Says whether there is an image.
fn flag_of(image: &Option<Value>) -> u8
    ensures { result ≡ flag image.now }
{
    match image {
        Some(_) => 1,
        None => 0,
    }
}
