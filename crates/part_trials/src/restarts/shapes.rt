//! Disks that were never written, and disks of another shape.
use crate::restarts::layout::{Layout, PAIR, disks_of};
use crate::restarts::pair::layout_of;
use crate::restarts::restart::{expect, prepare_pair, wanted};
use crate::restarts::trouble::Trouble;
use host_io::MemDisk;
use sig_core::{RestartFault, Shape};
use std::alloc::Global;
use sys_restart::restore;

/// Of disks that were never written generation 0 is restored, and then the one that is prepared.
pub fn empty_disks(alloc: Global) -> Result<(), Trouble> {
    let none = Layout::new(alloc);
    let mut disks = disks_of(&none, &none)?;
    begin_anew(alloc, &mut disks)?;
    expect(alloc, &mut disks, &wanted(alloc, 1, 0, &[])?)
}

fn begin_anew(alloc: Global, disks: &mut [MemDisk; 2]) -> Result<(), Trouble> {
    let first = wanted(alloc, 0, 0, &[])?;
    expect(alloc, disks, &first)?;
    prepare_pair(alloc, disks, &first)
}

/// Disks of another shape are refused.
pub fn another_shape(alloc: Global) -> Result<(), Trouble> {
    let mut disks = disks_of(&Layout::new(alloc), &layout_of(alloc, 2, false)?)?;
    is_refused(alloc, &mut disks)
}

fn is_refused(alloc: Global, disks: &mut [MemDisk; 2]) -> Result<(), Trouble> {
    let asked = Shape {
        fragments: 5,
        ..PAIR
    };
    let fault = RestartFault::OtherShape { found: PAIR, asked };
    match restore(alloc, disks, asked) {
        Ok(_) => Err(Trouble::NotRefused),
        Err(found) if found == fault => Ok(()),
        Err(found) => Err(Trouble::from(found)),
    }
}
