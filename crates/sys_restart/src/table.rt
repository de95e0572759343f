//! Rows as a table.
ghost use Rattle.std.specs.Prelude.{◌≡◌, IfOk};
ghost use Rattle.std.specs.FinMap as finmap;

use row_map::RowMap;
use sig_core::{Key, NoMemory, Table, Value};
use std::alloc::Global;

/// A table of the same rows.
///
/// # Errors
/// `NoMemory`.
#[tactic(auto, using(crate::proofs::TableLemmas::listed))]
pub(crate) fn to_table(alloc: Global, rows: &RowMap) -> Result<Table, NoMemory>
    ensures { IfOk result (λ table. table ≡ rows.now) }
{
    let listed = rows.to_rows(alloc)?;
    table_of(alloc, &listed)
}

// A table of rows that are listed, of which the first counts where a key comes again.
fn table_of(alloc: Global, rows: &[(Key, Value)]) -> Result<Table, NoMemory>
    ensures { IfOk result (λ table. table ≡ finmap.from_entries rows.now) }
{
    let mut table = Table::new(alloc);
    for done in 0..rows.len() {
        let (key, value) = rows[rows.len() - 1 - done];
        table.insert(key, value)?;
    }
    Ok(table)
}
