//! The client of the table's lives.
ghost use Rattle.std.specs.Prelude.{OnOk};
ghost use Rattle.world_views.specs.Driven.{IsWorld};
ghost use Rattle.world_views.specs.WorldOf.{whole_of};

use crate::cluster::{Cluster, ask, next_reply, take_first};
use crate::fault::RunFault;
use sig_core::{ApiReply, ApiReq, HeldOp, Key, Op, Value};
use std::alloc::Global;

/// The name of the transaction.
const NAME: u16 = 1;
/// The node of its coordinator.
const NODE: u8 = 1;
/// The rows that it writes: in four fragments, of which two nodes have two and the other nodes the others.
const KEYS: [u8; 4] = [b'a', b'b', b'c', b'e'];

/// A client that has one transaction: it begins it, has it write its rows, and then commit, and asks for each as soon
/// as it is told that the one before was done.
#[derive(Clone, Copy)]
pub struct Client {
    /// How many of these requests it has made.
    asked: usize,
    /// It was told how the transaction ended, or that it was never begun.
    is_told: bool,
}

impl Client {
    /// Asks for the transaction.
    ///
    /// # Errors
    /// `NoMemory`.
    pub fn begin(alloc: Global, cluster: &mut Cluster) -> Result<Client, RunFault>
        requires { IsWorld (whole_of cluster.old.world) }
        ensures { OnOk result (IsWorld (whole_of cluster.new.world)) }
    {
        let mut client = Client {
            asked: 0,
            is_told: false,
        };
        client.ask_next(alloc, cluster)?;
        Ok(client)
    }

    /// Whether it was told how the transaction ended.
    pub fn is_told(&self) -> bool {
        self.is_told
    }

    /// So many signals are taken, unless nothing is under way any more. Tells how many.
    ///
    /// # Errors
    /// `NoMemory`.
    pub fn go_on(
        &mut self,
        alloc: Global,
        cluster: &mut Cluster,
        most: u64,
    ) -> Result<u64, RunFault>
        requires { IsWorld (whole_of cluster.old.world) }
        ensures { OnOk result (IsWorld (whole_of cluster.new.world)) }
    {
        for count in 0..most {
            if !take_first(alloc, cluster)? {
                return Ok(count);
            }
            self.hear(alloc, cluster)?;
        }
        Ok(most)
    }

    // Is given all replies, and asks on.
    fn hear(&mut self, alloc: Global, cluster: &mut Cluster) -> Result<(), RunFault>
        requires { IsWorld (whole_of cluster.old.world) }
        ensures { OnOk result (IsWorld (whole_of cluster.new.world)) }
    {
        for _ in 0..u64::MAX {
            match next_reply(cluster) {
                Some(reply) => self.take(alloc, cluster, &reply)?,
                None => return Ok(()),
            }
        }
        Ok(())
    }

    fn take(
        &mut self,
        alloc: Global,
        cluster: &mut Cluster,
        reply: &ApiReply,
    ) -> Result<(), RunFault>
        requires { IsWorld (whole_of cluster.old.world) }
        ensures { OnOk result (IsWorld (whole_of cluster.new.world)) }
    {
        match reply {
            ApiReply::Begun { name: NAME, .. } => self.ask_next(alloc, cluster),
            ApiReply::Answered {
                name: Some(NAME),
                ..
            } => self.ask_next(alloc, cluster),
            ApiReply::Ended {
                name: Some(NAME),
                ..
            }
            | ApiReply::Refused {
                name: Some(NAME),
                ..
            } => {
                self.is_told = true;
                Ok(())
            }
            _ => Ok(()),
        }
    }

    fn ask_next(&mut self, alloc: Global, cluster: &mut Cluster) -> Result<(), RunFault>
        requires { IsWorld (whole_of cluster.old.world) }
        ensures { OnOk result (IsWorld (whole_of cluster.new.world)) }
    {
        let request = request_at(alloc, self.asked)?;
        self.asked = self.asked.saturating_add(1);
        Ok(ask(alloc, cluster, request)?)
    }
}

// The request at this place.
fn request_at(alloc: Global, at: usize) -> Result<ApiReq, RunFault> {
    if at == 0 {
        return Ok(ApiReq::Begin {
            name: NAME,
            node: Some(NODE),
        });
    }
    match KEYS.get(at - 1) {
        Some(key) => put(alloc, Some(NAME), *key, b'1'),
        None => Ok(ApiReq::Commit { name: NAME }),
    }
}

/// A transaction of its own that writes the first of the rows.
///
/// # Errors
/// `NoMemory`.
pub fn put_alone(alloc: Global) -> Result<ApiReq, RunFault> {
    put(alloc, None, KEYS[0], b'0')
}

fn put(alloc: Global, name: Option<u16>, key: u8, value: u8) -> Result<ApiReq, RunFault> {
    let op = Op::Put(Key::new(&[key])?, Value::new(&[value])?);
    Ok(ApiReq::Operate {
        name,
        op: HeldOp::new(alloc, op)?,
    })
}
