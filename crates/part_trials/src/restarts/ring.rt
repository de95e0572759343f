//! Redo that goes round the ring of its files.
use crate::restarts::layout::{Layout, slot_without_redo, system_of};
use crate::restarts::pair::LOG;
use crate::restarts::records::redo;
use crate::restarts::restart::gives;
use crate::restarts::trouble::Trouble;
use sig_core::{ControlSlot, LOG_FILE_BYTES, LOG_FILES};
use std::alloc::Global;

/// So many bytes of it stand at the end of the last file, where they end amid a record.
const FRONT: usize = 30;

/// Where it begins, in the second round.
const START: u64 = LOG_FILE_BYTES * LOG_FILES * 2 - FRONT as u64;

/// Redo that begins at the end of the last file of the ring, amid a record, goes on at the beginning of the first.
pub fn redo_round_the_ring(alloc: Global) -> Result<(), Trouble> {
    let mut layout = Layout::new(alloc);
    lay(alloc, &mut layout)?;
    gives(
        alloc,
        &layout,
        &layout,
        (1, 5),
        &[(b'a', b'9'), (b'd', b'4')],
    )
}

fn lay(alloc: Global, layout: &mut Layout) -> Result<(), Trouble> {
    let log = redo(alloc, &LOG)?;
    let (front, behind) = log.split_at(log.len().min(FRONT));
    layout.put(7, LOG_FILE_BYTES - FRONT as u64, front)?;
    layout.put(4, 0, behind)?;
    let slot = ControlSlot {
        redo_start: START,
        redo_end: START.saturating_add(log.len() as u64),
        ..slot_without_redo(3, 1, 9, 5, 0)
    };
    layout.control(4_096, &slot)?;
    layout.system(0, &system_of(1, 5, 3))
}
