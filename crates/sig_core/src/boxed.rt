//! Values on the heap.
ghost use Rattle.std.specs.Prelude.{◌≡◌, IfOk};

use crate::no_memory::NoMemory;
use std::alloc::Global;
use std::marker::Model;

/// A value on the heap that one holds alone, so that handing it on moves a pointer. Contracts see the
/// value.
#[derive(Drop)]
pub struct Boxed<T> {
    value: Box<T, Global>,
}

impl<T> Model for Boxed<T> {
    ghost Value = { T };

    ghost view = { λ b. b.value.value };
}

impl<T: Drop> Boxed<T> {
    /// Puts a value on the heap.
    ///
    /// # Errors
    /// `NoMemory`.
    pub fn new(alloc: Global, value: T) -> Result<Boxed<T>, NoMemory>
        ensures { IfOk result (λ b. b ≡ value) }
    {
        let value = Box::new(alloc, value)?;
        Ok(Boxed { value })
    }
}

// Whoever only reads need not show that the value may be dropped: of a signal that is a proof for each of its parts.
impl<T> Boxed<T> {
    /// The value.
    pub fn get(&self) -> &T
        ensures { result.now ≡ self.now }
    {
        &self.value
    }
}
