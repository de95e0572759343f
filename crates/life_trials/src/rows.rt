//! The rows that nodes tell of.
ghost use Rattle.std.specs.Prelude.{OnOk};
ghost use Rattle.world_views.specs.Driven.{IsWorld};
ghost use Rattle.world_views.specs.WorldOf.{whole_of};

use crate::cluster::{Cluster, ask, drive, next_reply, pick};
use crate::fault::RunFault;
use life_judge::NodeRows;
use sig_core::{ApiReq, HostId, NoMemory};
use std::alloc::Global;
use std::sync::Wait;
use world_views::{PARTS, Pick};

/// How many signals are taken at most of each link by which rows are told.
const PEEKS: u32 = 200;

/// The rows that a node tells of, once nothing is under way any more.
///
/// # Errors
/// `NoMemory`.
pub fn rows_of<W: Wait>(
    rt: &W,
    alloc: Global,
    cluster: &mut Cluster,
    node: u8,
) -> Result<NodeRows, NoMemory>
    requires { IsWorld (whole_of cluster.old.world) }
    ensures { OnOk result (IsWorld (whole_of cluster.new.world)) }
{
    ask(alloc, cluster, ApiReq::Rows { node })?;
    drive(rt, alloc, cluster)?;
    let mut rows = NodeRows::new(alloc, node);
    listen(cluster, &mut rows)?;
    Ok(rows)
}

/// The rows that a node tells of while all else stands still: only what stands between the client and
/// the node's rows is taken, and at most so many signals.
///
/// # Errors
/// `NoMemory`.
pub fn peek_rows(alloc: Global, cluster: &mut Cluster, node: u8) -> Result<NodeRows, RunFault>
    requires { IsWorld (whole_of cluster.old.world) }
    ensures { OnOk result (IsWorld (whole_of cluster.new.world)) }
{
    ask(alloc, cluster, ApiReq::Rows { node })?;
    let mut rows = NodeRows::new(alloc, node);
    for _ in 0..PEEKS {
        peek(alloc, cluster, HostId(u32::from(node) * PARTS))?;
        listen(cluster, &mut rows)?;
        if rows.is_told() {
            return Ok(rows);
        }
    }
    Ok(rows)
}

// A signal is taken at a node's rows, and one from there.
fn peek(alloc: Global, cluster: &mut Cluster, host: HostId) -> Result<(), RunFault>
    requires { IsWorld (whole_of cluster.old.world) }
    ensures { OnOk result (IsWorld (whole_of cluster.new.world)) }
{
    let client = HostId(0);
    pick(alloc, cluster, Pick::Take { host, from: client })?;
    pick(
        alloc,
        cluster,
        Pick::Take {
            host: client,
            from: host,
        },
    )
}

// The replies that the shell hasn't had, which tell of rows.
fn listen(cluster: &mut Cluster, rows: &mut NodeRows) -> Result<(), NoMemory>
    requires { IsWorld (whole_of cluster.old.world) }
    ensures { IsWorld (whole_of cluster.new.world) }
{
    for _ in 0..u64::MAX {
        match next_reply(cluster) {
            Some(reply) => rows.add(&reply)?,
            None => return Ok(()),
        }
    }
    Ok(())
}
