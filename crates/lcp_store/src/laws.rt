//! What reading and writing are to each other.
ghost use Rattle.lcp_store.specs.Laws.{CheckpointsAreRead, NoneBeginsAnother, RowsAreRead};

/// A law, which does nothing: the bytes of a row, whatever stands behind them, are read as that row.
pub fn rows_are_read()
    ensures { RowsAreRead }
{}

/// A law, which does nothing: no row's bytes begin another's, and a row has one spelling.
pub fn no_row_begins_another()
    ensures { NoneBeginsAnother }
{}

/// A law, which does nothing: the bytes of rows one after the other, behind the head in version 2,
/// are read as these rows, of which the last of each key counts.
pub fn checkpoints_are_read()
    ensures { CheckpointsAreRead }
{}
