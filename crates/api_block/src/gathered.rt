//! Rows that were gathered.
ghost use Rattle.std.specs.Prelude.{◌≡◌, [], OnOk, OnErr, IfOk};
ghost use Rattle.api_block.specs.Gathered.{gathered};

use sig_core::{Key, NoMemory, Value};
use std::alloc::Global;
use std::collections::BTreeMap;
use std::marker::Model;

/// The rows of a node that came so far. Contracts see them in byte order of keys, each key once.
#[derive(Drop)]
pub struct GatheredRows {
    /// In the order in which they came. The last one of a key counts.
    rows: Vec<(Key, Value)>,
}

impl Model for GatheredRows {
    ghost use Rattle.std.specs.Prelude.{List, ℕ, []};
    ghost use Rattle.api_block.specs.Gathered.{gathered};

    ghost Value = { List (List ℕ × List ℕ) };

    ghost view = { λ g. gathered [] g.rows.items };
}

impl GatheredRows {
    /// No rows. Takes no memory.
    pub fn new(alloc: Global) -> GatheredRows
        ensures { result ≡ [] }
    {
        GatheredRows {
            rows: Vec::new(alloc),
        }
    }

    /// More rows join them.
    ///
    /// # Errors
    /// `NoMemory`, and then the rows are as they were.
    #[tactic(auto, using(crate::proofs::GatheredLemmas::rows_join))]
    pub fn join(&mut self, more: &[(Key, Value)]) -> Result<(), NoMemory>
        ensures ok { OnOk result (self.new ≡ gathered self.old more.now) }
        ensures err { OnErr result (self.new ≡ self.old) }
    {
        self.rows.extend_from_slice(more)?;
        Ok(())
    }

    /// All rows in byte order of keys, after the last ones came.
    ///
    /// # Errors
    /// `NoMemory`.
    pub fn with_last(
        &self,
        alloc: Global,
        last: &[(Key, Value)],
    ) -> Result<Vec<(Key, Value)>, NoMemory>
        ensures { IfOk result (λ rows. rows.items ≡ gathered self.now last.now) }
    {
        let mut rows = BTreeMap::new(alloc);
        insert_both(&mut rows, self.rows.as_slice(), last)?;
        in_order(alloc, rows)
    }
}

// The rows of a map, in its order.
fn in_order(alloc: Global, rows: BTreeMap<Key, Value>) -> Result<Vec<(Key, Value)>, NoMemory>
    ensures { IfOk result (λ list. list.items ≡ rows.entries) }
{
    Ok(rows.into_iter().collect(alloc)?)
}

// Inserts the rows of one list, and then those of another.
fn insert_both(
    map: &mut BTreeMap<Key, Value>,
    rows: &[(Key, Value)],
    last: &[(Key, Value)],
) -> Result<(), NoMemory>
    ensures { OnOk result (map.new.entries ≡ gathered (gathered map.old.entries rows.now) last.now) }
{
    insert_all(map, rows)?;
    insert_all(map, last)
}

// Inserts rows, each in place of the one that its key had.
fn insert_all(map: &mut BTreeMap<Key, Value>, rows: &[(Key, Value)]) -> Result<(), NoMemory>
    ensures { OnOk result (map.new.entries ≡ gathered map.old.entries rows.now) }
{
    for row in rows {
        map.insert(row.0, row.1)?;
    }
    Ok(())
}
