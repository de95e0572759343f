//! A local checkpoint on its way.
ghost use Rattle.std.specs.Prelude.{◌≡◌, ◌++◌, max, IfOk, Ok, OnErr, OnOk};
ghost use Rattle.sig_core.specs.declared.walk.Finished.{Finished};
ghost use Rattle.sig_core.specs.Walk.{Steps, WalkState, begun, ended, head_at, noting};

use crate::passing::{next_row, put_rows};
use lcp_store::put_head;
use sig_core::{Finished, NoMemory, Piece, Rows, Seq, Walk};
use std::alloc::Global;
use std::marker::Model;

/// A local checkpoint on its way: a walk over the places of a node's rows, which gives out what it
/// passes, some rows a step, while transactions go on. A row that changes where the walk has been is
/// not written again: the log has it. Contracts see the numbers alone.
#[derive(Drop)]
pub struct Ckpt {
    alloc: Global,
    file: u8,
    from: u64,
    epoch: u64,
    /// The places below this one have been passed.
    place: u64,
    /// The bytes that were given out.
    size: u64,
}

impl Model for Ckpt {
    ghost use Rattle.sig_core.specs.Walk.{WalkState};

    ghost Value = { WalkState };

    ghost view = { λ c. record { file = c.file; from = c.from; epoch = c.epoch; place = c.place; size = c.size } };
}

impl Walk for Ckpt {
    ghost walk_of = { λ c. c };

    /// A walk from the first place on, into this file. `from` is a position of the log that isn't
    /// above its end, and behind which it has the prepare of each record that is prepared now;
    /// `epoch` is the greatest of the committed rows. Takes no memory.
    fn start(alloc: Global, file: u8, from: u64, epoch: u64) -> Result<Ckpt, NoMemory>
        ensures { (ckpt : WalkState) × (result ≡ Ok ckpt) × (ckpt ≡ begun file from epoch) }
    {
        Ok(Ckpt {
            alloc,
            file,
            from,
            epoch,
            place: 0,
            size: 0,
        })
    }

    /// The bytes of the next rows, at their place: at most 128 rows, and the first piece has the head
    /// in front of them. None exactly where no place that wasn't passed has a row.
    ///
    /// # Errors
    /// `NoMemory`, also where the bytes would exceed 2^64; and then the walk is as it was.
    fn step<R: Rows>(&mut self, rows: &R) -> Result<Option<Piece>, NoMemory>
        ensures piece { IfOk result (λ given. Steps (R.state_of rows.now) self.old given self.new) }
        ensures err { OnErr result (self.new ≡ self.old) }
    {
        if next_row(rows, self.place).is_none() {
            return Ok(None);
        }
        let mut bytes = Vec::new(self.alloc);
        begin_piece(self.size, &mut bytes)?;
        let place = put_rows(rows, self.place, &mut bytes)?;
        let Some(size) = self.size.checked_add(bytes.len() as u64) else {
            return Err(NoMemory);
        };
        let piece = Piece {
            file: self.file,
            at: self.size,
            bytes: Seq::from_vec(bytes),
        };
        self.place = place;
        self.size = size;
        Ok(Some(piece))
    }

    /// A row was committed in this epoch while the walk was on its way. Takes no memory.
    fn committed(&mut self, epoch: u64)
        ensures { self.new ≡ noting self.old epoch }
    {
        self.epoch = self.epoch.max(epoch);
    }

    /// What the checkpoint comes to, once a step has given nothing. Takes no memory.
    fn finish(self) -> Finished
        ensures { result ≡ ended self }
    {
        Finished {
            file: self.file,
            size: self.size,
            from: self.from,
            epoch: self.epoch,
        }
    }
}

// What stands in front of the rows of a piece, behind so many bytes: the head, in the first one.
fn begin_piece(size: u64, out: &mut Vec<u8>) -> Result<(), NoMemory>
    ensures { OnOk result (out.new.items ≡ out.old.items ++ head_at size) }
{
    if size == 0 {
        put_head(out)?;
    }
    Ok(())
}
