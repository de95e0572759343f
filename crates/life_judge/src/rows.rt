//! The rows of the nodes, and those of the history.
ghost use Rattle.frag_map.specs.Shape.{IsShape};

use crate::facts::Facts;
use crate::law::{Fault, Law};
use crate::records::Record;
use crate::views::{Views, node_of};
use frag_map::holds;
use sig_core::{ApiReply, Key, NoMemory, Shape, Table, Value};
use std::alloc::Global;

/// The rows that a node told of.
#[derive(Drop)]
pub struct NodeRows {
    node: u8,
    /// It told of all of them.
    told: bool,
    rows: Vec<(Key, Value)>,
}

impl NodeRows {
    /// None yet.
    pub fn new(alloc: Global, node: u8) -> NodeRows {
        NodeRows {
            node,
            told: false,
            rows: Vec::new(alloc),
        }
    }

    /// One more reply.
    ///
    /// # Errors
    /// `NoMemory`.
    pub fn add(&mut self, reply: &ApiReply) -> Result<(), NoMemory> {
        match reply {
            ApiReply::Row { key, value } => self.rows.push((*key, *value))?,
            ApiReply::Rows { node, count: _ } => self.end(*node),
            _ => {}
        }
        Ok(())
    }

    // A node told of all its rows. Where it is another one, these weren't asked for here.
    fn end(&mut self, node: u8) {
        if node == self.node {
            self.told = true;
        } else {
            self.rows.clear();
        }
    }

    /// Whether it told of all its rows.
    pub fn is_told(&self) -> bool {
        self.told
    }
}

/// Judges the rows of nodes: a key that is at rest at each live node that has it, has the row of the
/// history there. Judged of these keys.
///
/// # Errors
/// `RowsAgree`, where it is broken.
pub fn judge_rows(
    facts: &Facts,
    shape: &Shape,
    table: &Table,
    nodes: &[NodeRows],
    keys: &[Key],
) -> Result<(), Fault>
    requires shape { IsShape shape.now }
{
    for key in keys {
        if rests(&facts.views, facts.records.held.as_slice(), key)
            && differs(&facts.views, shape, table, nodes, key)
        {
            return Err(Fault::Broken(Law::RowsAgree));
        }
    }
    Ok(())
}

// Whether a live node that has the key, and told of its rows, has another row than the table.
fn differs(views: &Views, shape: &Shape, table: &Table, nodes: &[NodeRows], key: &Key) -> bool
    requires shape { IsShape shape.now }
{
    let row = table.get(key);
    for node in nodes {
        if tells(views, shape, node, key) && row_of(node.rows.as_slice(), key) != row {
            return true;
        }
    }
    false
}

// Whether a node is live, has the key, and told of its rows.
fn tells(views: &Views, shape: &Shape, node: &NodeRows, key: &Key) -> bool
    requires shape { IsShape shape.now }
{
    node.told && views.is_live(u32::from(node.node)) && holds(node.node, key, shape)
}

// Whether no live node holds a record on the key.
fn rests(views: &Views, held: &[Record], key: &Key) -> bool {
    for record in held {
        if record.key == *key && views.is_live(node_of(record.host)) {
            return false;
        }
    }
    true
}

fn row_of(rows: &[(Key, Value)], key: &Key) -> Option<Value> {
    for row in rows {
        if row.0 == *key {
            return Some(row.1);
        }
    }
    None
}
