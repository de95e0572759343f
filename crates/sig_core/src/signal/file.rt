//! Signals between a block and the disk of its node.
use crate::place::BlockId;
use crate::seq::Seq;

/// Signals between a block and the disk of its node. A block numbers its requests.
#[derive(Drop)]
pub enum FileSignal {
    FsWriteReq {
        by: BlockId,
        req: u64,
        file: u8,
        at: u64,
        bytes: Seq<u8>,
    },
    FsSyncReq {
        by: BlockId,
        req: u64,
        file: u8,
    },
    FsConf {
        req: u64,
    },
}
