//! Lines of a batch.
ghost use Rattle.std.specs.Prelude.{◌≡◌, ◌∷◌, ◌++◌, OnOk};
ghost use Rattle.trace_bytes.specs.Lines.{line_bytes};

use crate::output::Output;
use sig_core::{BatchLine, NoMemory};
use trace_bytes::kinds::lines;

impl Output {
    /// Adds a line of a batch.
    #[tactic(auto, unfolding(trace_bytes::specs::Lines::line_bytes))]
    pub fn line(&mut self, line: &BatchLine) -> Result<(), NoMemory>
        ensures { OnOk result (self.new ≡ self.old ++ line_bytes line.now) }
    {
        match line {
            BatchLine::Begin { name, node } => self.put_u16_opt_u8(lines::BEGIN, *name, *node),
            BatchLine::Operate { name, op } => self.put_u16_op(lines::OPERATE, *name, op),
            BatchLine::Kill { node, after } => self.put_u8_u32(lines::KILL, *node, *after),
            BatchLine::Gcp => self.u8(lines::GCP),
            BatchLine::Lcp => self.u8(lines::LCP),
            BatchLine::Micro => self.u8(lines::MICRO),
            BatchLine::Unique { name, op } => self.put_u16_op(lines::UNIQUE, *name, op),
        }
    }
}
