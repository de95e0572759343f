//! Lines of a batch.
ghost use Rattle.trace_read.specs.Reading.{Gives};
ghost use Rattle.trace_bytes.specs.Lines.{line_at, line_of, line_of_1, line_of_2};

use crate::input::Input;
use sig_core::BatchLine;
use trace_bytes::kinds::lines;

impl Input<'_> {
    /// A line of a batch.
    #[tactic(auto, unfolding(trace_bytes::specs::Lines::line_at))]
    pub fn line(&mut self) -> Result<BatchLine, usize>
        ensures { Gives result self.new (line_at self.old) }
    {
        let number = self.byte(0, 6)?;
        self.line_of(number)
    }

    fn line_of(&mut self, number: u8) -> Result<BatchLine, usize>
        ensures { Gives result self.new (line_of number self.old) }
    {
        if number < 6 {
            self.line_of_1(number)
        } else {
            self.line_of_2(number)
        }
    }

    #[tactic(auto, unfolding(trace_bytes::specs::Lines::line_of_1))]
    fn line_of_1(&mut self, number: u8) -> Result<BatchLine, usize>
        ensures { Gives result self.new (line_of_1 number self.old) }
    {
        match number {
            lines::BEGIN => {
                let name = self.u16()?;
                let node = self.opt_u8()?;
                Ok(BatchLine::Begin { name, node })
            }
            lines::OPERATE => {
                let name = self.u16()?;
                let op = self.op()?;
                Ok(BatchLine::Operate { name, op })
            }
            lines::KILL => {
                let node = self.u8()?;
                let after = self.u32()?;
                Ok(BatchLine::Kill { node, after })
            }
            lines::GCP => Ok(BatchLine::Gcp),
            lines::LCP => Ok(BatchLine::Lcp),
            _ => Ok(BatchLine::Micro),
        }
    }

    #[tactic(auto, unfolding(trace_bytes::specs::Lines::line_of_2))]
    fn line_of_2(&mut self, number: u8) -> Result<BatchLine, usize>
        ensures { Gives result self.new (line_of_2 number self.old) }
    {
        match number {
            _ => {
                let name = self.u16()?;
                let op = self.op()?;
                Ok(BatchLine::Unique { name, op })
            }
        }
    }
}
