//! Signals between a block and the disk of its node.
ghost use Rattle.std.specs.Prelude.{◌≡◌, ◌∷◌, ◌++◌, OnOk};
ghost use Rattle.trace_bytes.specs.FileSignals.{file_signal_bytes};

use crate::output::Output;
use sig_core::{FileSignal, NoMemory};
use trace_bytes::kinds::signals;

impl Output {
    /// Adds a signal of this family.
    #[tactic(auto, unfolding(trace_bytes::specs::FileSignals::file_signal_bytes))]
    pub fn file_signal(&mut self, signal: &FileSignal) -> Result<(), NoMemory>
        ensures { OnOk result (self.new ≡ self.old ++ file_signal_bytes signal.now) }
    {
        match signal {
            FileSignal::FsWriteReq {
                by,
                req,
                file,
                at,
                bytes,
            } => self.put_block_u64_u8_u64_bytes(
                signals::FS_WRITE_REQ,
                *by,
                *req,
                *file,
                *at,
                bytes.as_slice(),
            ),
            FileSignal::FsSyncReq { by, req, file } => self.put_block_u64_u8(
                signals::FS_SYNC_REQ,
                *by,
                *req,
                *file,
            ),
            FileSignal::FsConf { req } => self.put_u64(signals::FS_CONF, *req),
        }
    }
}
