//! Requests of the shell.
ghost use Rattle.std.specs.Prelude.{◌≡◌, ◌∷◌, ◌++◌, OnOk};
ghost use Rattle.trace_bytes.specs.Requests.{request_bytes};

use crate::output::Output;
use sig_core::{ApiReq, NoMemory};
use trace_bytes::kinds::requests;

impl Output {
    /// Adds a request of the shell.
    #[tactic(auto, unfolding(trace_bytes::specs::Requests::request_bytes))]
    pub fn request(&mut self, request: &ApiReq) -> Result<(), NoMemory>
        ensures { OnOk result (self.new ≡ self.old ++ request_bytes request.now) }
    {
        match request {
            ApiReq::Begin { name, node } => self.put_u16_opt_u8(requests::BEGIN, *name, *node),
            ApiReq::Operate { name, op } => self.put_name_op(requests::OPERATE, *name, op.get()),
            ApiReq::Commit { name } => self.put_u16(requests::COMMIT, *name),
            ApiReq::Abort { name } => self.put_u16(requests::ABORT, *name),
            ApiReq::Batch { lines } => self.put_lines(requests::BATCH, lines.as_slice()),
            ApiReq::Kill { node } => self.put_u8(requests::KILL, *node),
            ApiReq::Cut { one, other } => self.put_u8_u8(requests::CUT, *one, *other),
            ApiReq::Tick { round, of: rounds } => self.put_u8_u8(requests::TICK, *round, *rounds),
            ApiReq::Gcp => self.u8(requests::GCP),
            ApiReq::Lcp => self.u8(requests::LCP),
            ApiReq::Start { node, own } => self.put_u8_opt_u64(requests::START, *node, *own),
            ApiReq::Crash => self.u8(requests::CRASH),
            ApiReq::Restart => self.u8(requests::RESTART),
            ApiReq::Rows { node } => self.put_u8(requests::ROWS, *node),
            ApiReq::Digest { node } => self.put_u8(requests::DIGEST, *node),
            ApiReq::View => self.u8(requests::VIEW),
            ApiReq::Waits => self.u8(requests::WAITS),
            ApiReq::Pending => self.u8(requests::PENDING),
            ApiReq::Micro => self.u8(requests::MICRO),
            ApiReq::Subscribe { subscriber } => self.put_u16(requests::SUBSCRIBE, *subscriber),
            ApiReq::Unsubscribe { subscriber } => self.put_u16(requests::UNSUBSCRIBE, *subscriber),
            ApiReq::Backup { backup } => self.put_u32(requests::BACKUP, *backup),
            ApiReq::Dump { backup } => self.put_u32(requests::DUMP, *backup),
            ApiReq::Unique { name, op } => self.put_name_op(requests::UNIQUE, *name, op.get()),
        }
    }
}
