//! Values that signals share.
ghost use Rattle.std.specs.Prelude.{◌≡◌, IfOk};

use crate::no_memory::NoMemory;
use std::alloc::Global;
use std::marker::Model;
use std::sync::Arc;

/// A value on the heap that signals, logs and blocks hold together, so that none of them has a copy
/// of its own. Contracts see the value.
#[derive(Drop)]
pub struct Held<T> {
    value: Arc<T, Global>,
}

impl<T> Model for Held<T> {
    ghost use Rattle.std.specs.Arc.{arc_value};

    ghost Value = { T };

    ghost view = { λ h. arc_value h.value };
}

impl<T: Drop> Held<T> {
    /// Holds a value.
    ///
    /// # Errors
    /// `NoMemory`.
    pub fn new(alloc: Global, value: T) -> Result<Held<T>, NoMemory>
        ensures { IfOk result (λ h. h ≡ value) }
    {
        let value = Arc::new(alloc, value)?;
        Ok(Held { value })
    }

    /// The value.
    pub fn get(&self) -> &T
        ensures { result.now ≡ self.now }
    {
        &self.value
    }

    /// Holds the same value once more.
    ///
    /// # Errors
    /// `NoMemory` where it is held 2^63 - 1 times.
    pub fn share(&self) -> Result<Held<T>, NoMemory>
        ensures { IfOk result (λ h. h ≡ self.now) }
    {
        let value = Arc::try_clone(&self.value)?;
        Ok(Held { value })
    }
}
