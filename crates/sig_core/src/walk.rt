//! What a local checkpoint on its way is.
ghost use Rattle.std.specs.Prelude.{◌≡◌, IfOk, OnErr};
ghost use Rattle.sig_core.specs.declared.walk.Finished.{Finished};
ghost use Rattle.sig_core.specs.Walk.{Steps, WalkState, begun, ended, noting};

use crate::no_memory::NoMemory;
use crate::piece::Piece;
use crate::rows::Rows;
use std::alloc::Global;

/// How many rows a piece of a checkpoint has at most.
pub const PIECE_ROWS: u64 = 128;

/// A local checkpoint whose pieces are all given out.
#[derive(Clone, Copy, Debug, PartialEq, Eq)]
pub struct Finished {
    /// The file that it is in.
    pub file: u8,
    /// The bytes that it has there, from the first on.
    pub size: u64,
    /// The position from which on the log belongs to it: with the records from there on, and not
    /// without them, it gives the rows.
    pub from: u64,
    /// The epoch from which on it can be used: no row in it is of a later one.
    pub epoch: u64,
}

/// A local checkpoint on its way: a walk over the places of a node's rows, which gives out what it
/// passes, some rows a step, while transactions go on.
pub trait Walk: Drop {
    /// What the walk is seen as.
    ghost walk_of: { Self → WalkState };

    /// A walk from the first place on, into this file. `from` is the position from which on the log
    /// belongs to the checkpoint; `epoch` is the greatest of the committed rows.
    ///
    /// # Errors
    /// `NoMemory`.
    fn start(alloc: Global, file: u8, from: u64, epoch: u64) -> Result<Self, NoMemory>
        ensures { IfOk result (λ walk. walk_of walk ≡ begun file from epoch) };

    /// The bytes of the next rows, at their place: at most 128 rows. None exactly where no place that
    /// wasn't passed has a row.
    ///
    /// # Errors
    /// `NoMemory`, and then the walk is as it was.
    fn step<R: Rows>(&mut self, rows: &R) -> Result<Option<Piece>, NoMemory>
        ensures piece { IfOk result (λ given. Steps (R.state_of rows.now) (walk_of self.old) given (walk_of self.new)) }
        ensures err { OnErr result (walk_of self.new ≡ walk_of self.old) };

    /// A row was committed in this epoch while the walk was on its way. Takes no memory.
    fn committed(&mut self, epoch: u64)
        ensures { walk_of self.new ≡ noting (walk_of self.old) epoch };

    /// What the checkpoint comes to, once a step has given nothing. Takes no memory.
    fn finish(self) -> Finished
        ensures { result ≡ ended (walk_of self) };
}
