//! Lists that grow, and tell want of memory.
ghost use Rattle.std.specs.Prelude.{◌≡◌, ◌++◌, ◌∷◌, [], OnOk, OnErr};

use sig_core::NoMemory;
use std::collections::VecDeque;

/// Adds an item behind the others.
///
/// # Errors
/// `NoMemory`, and then the list is as it was.
pub fn push<T: Drop>(list: &mut Vec<T>, item: T) -> Result<(), NoMemory>
    ensures ok { OnOk result (list.new.items ≡ list.old.items ++ item ∷ []) }
    ensures err { OnErr result (list.new.items ≡ list.old.items) }
{
    list.push(item)?;
    Ok(())
}

/// Adds an item behind the others.
///
/// # Errors
/// `NoMemory`, and then the queue is as it was.
pub fn push_back<T: Drop>(queue: &mut VecDeque<T>, item: T) -> Result<(), NoMemory>
    ensures ok { OnOk result (queue.new.items ≡ queue.old.items ++ item ∷ []) }
    ensures err { OnErr result (queue.new.items ≡ queue.old.items) }
{
    queue.push_back(item)?;
    Ok(())
}

/// Adds the items of a list behind the others.
///
/// # Errors
/// `NoMemory`, and then the queue is as it was.
pub fn append<T: Drop>(queue: &mut VecDeque<T>, items: Vec<T>) -> Result<(), NoMemory>
    ensures ok { OnOk result (queue.new.items ≡ queue.old.items ++ items.items) }
    ensures err { OnErr result (queue.new.items ≡ queue.old.items) }
{
    queue.append(&mut VecDeque::from_vec(items))?;
    Ok(())
}
