//! The rows that a node's disk has of itself.
ghost use Rattle.std.specs.Prelude.{◌≤◌};

use crate::restarts::layout::PAIR;
use crate::restarts::pair::{ROWS, layout_of};
use crate::restarts::rows::{key_of, table_of};
use crate::restarts::trouble::Trouble;
use sig_core::Own;
use std::alloc::Global;
use sys_restart::restore_own;

/// Node 1 has its own rows. Node 2 has saved epoch 5, and its system slot says 4; node 3 isn't listed.
pub fn own_rows(alloc: Global) -> Result<(), Trouble> {
    match own_of(alloc, 1, 1)? {
        Some(own) => own_are(alloc, &own)?,
        None => return Err(Trouble::Other),
    }
    is_none(own_of(alloc, 2, 2)?)?;
    is_none(own_of(alloc, 1, 3)?)
}

// The own rows of a node on the disk of another.
fn own_of(alloc: Global, disk: u8, node: u8) -> Result<Option<Own>, Trouble>
    requires some { 1 ≤ node }
    requires few { node ≤ 8 }
{
    let layout = layout_of(alloc, disk, false)?;
    Ok(restore_own(alloc, &mut layout.disk()?, PAIR, node)?)
}

fn is_none(own: Option<Own>) -> Result<(), Trouble> {
    match own {
        None => Ok(()),
        Some(_) => Err(Trouble::Other),
    }
}

// They are of epoch 5, and of the letters those of the pair.
fn own_are(alloc: Global, own: &Own) -> Result<(), Trouble> {
    let rows = table_of(alloc, &ROWS)?;
    for letter in b'a'..=b'z' {
        let key = key_of(letter)?;
        if own.epoch != 5 || own.rows.get(&key) != rows.get(&key) {
            return Err(Trouble::Other);
        }
    }
    Ok(())
}
