//! A page.
ghost use Rattle.std.specs.Prelude.{◌≡◌, ◌<◌, IfOk, None, length, slice_index_or, slice_set};
ghost use Rattle.tuple_pages.specs.Places.{rewritten};
ghost use Rattle.sig_core.specs.Rows.{kept_epoch};

use sig_core::{NoMemory, Slot, Value};
use std::alloc::Global;
use std::marker::Model;

/// The slots of a page.
pub const PAGE_SLOTS: usize = 128;

/// A page: so many slots, each free or taken. Contracts see their list.
#[derive(Drop)]
pub struct Page {
    slots: Vec<Option<Slot>>,
}

impl Model for Page {
    ghost use Rattle.std.specs.Prelude.{List, Option};
    ghost use Rattle.sig_core.specs.declared.rows.Slot.{Slot};

    ghost Value = { List (Option Slot) };

    ghost view = { λ p. p.slots.items };
}

impl Page {
    /// A page of free slots.
    ///
    /// # Errors
    /// `NoMemory`.
    pub fn new(alloc: Global) -> Result<Page, NoMemory>
        ensures { IfOk result (λ page. length page ≡ PAGE_SLOTS) }
    {
        let mut slots = Vec::with_capacity(alloc, PAGE_SLOTS)?;
        slots.resize(PAGE_SLOTS, None)?;
        Ok(Page { slots })
    }

    /// A slot.
    pub fn get(&self, at: usize) -> &Option<Slot>
        requires { at < length self.now }
        ensures { result.now ≡ slice_index_or self.now at None }
    {
        &self.slots[at]
    }

    /// Writes a slot.
    pub fn set(&mut self, at: usize, slot: Option<Slot>)
        requires { at < length self.old }
        ensures { self.new ≡ slice_set self.old at slot }
    {
        self.slots[at] = slot;
    }

    /// Makes this the row of a slot that is taken, of this epoch, or none. A free one stays so.
    pub fn rewrite(&mut self, at: usize, row: &Option<Value>, epoch: u64)
        requires { at < length self.old }
        ensures { self.new ≡ slice_set self.old at (rewritten (slice_index_or self.old at None) row.now epoch) }
    {
        rewrite(&mut self.slots[at], row, epoch);
    }
}

// Makes this the row of a slot that is taken, of this epoch, or none.
fn rewrite(slot: &mut Option<Slot>, row: &Option<Value>, epoch: u64)
    ensures { slot.new ≡ rewritten slot.old row.now epoch }
{
    if let Some(slot) = slot {
        slot.row = *row;
        slot.epoch = kept_epoch(row, epoch);
    }
}

// The epoch that is kept of a row: 0 where it is none.
fn kept_epoch(row: &Option<Value>, epoch: u64) -> u64
    ensures { result ≡ kept_epoch row.now epoch }
{
    if row.is_some() { epoch } else { 0 }
}
