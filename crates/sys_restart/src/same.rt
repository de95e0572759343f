//! Whether rows are the same.
ghost use Rattle.std.specs.Prelude.{◌≡◌, IfOk};
ghost use Rattle.sys_restart.specs.Same.{are_same};

use row_map::RowMap;
use sig_core::NoMemory;
use std::alloc::Global;

/// Whether the same keys have the same values.
///
/// # Errors
/// `NoMemory`.
pub(crate) fn are_same(alloc: Global, rows: &RowMap, other: &RowMap) -> Result<bool, NoMemory>
    ensures { IfOk result (λ same. same ≡ are_same rows.now other.now) }
{
    let ones = rows.lend_rows(alloc)?;
    let others = other.lend_rows(alloc)?;
    Ok(ones.as_slice() == others.as_slice())
}
