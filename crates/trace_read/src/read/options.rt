//! What may be left out.
ghost use Rattle.trace_read.specs.Reading.{Gives};
ghost use Rattle.trace_bytes.specs.Words.{name_at, opt_member_at, opt_row_at, opt_u8_at, opt_u64_at, opt_value_at};

use crate::input::Input;
use sig_core::{Key, Member, Value};

impl Input<'_> {
    /// The name of a transaction, where it has one.
    #[tactic(auto, unfolding(trace_bytes::specs::Words::name_at))]
    pub fn name(&mut self) -> Result<Option<u16>, usize>
        ensures { Gives result self.new (name_at self.old) }
    {
        if self.byte(0, 1)? == 0 {
            return Ok(None);
        }
        Ok(Some(self.u16()?))
    }

    /// A byte or none.
    #[tactic(auto, unfolding(trace_bytes::specs::Words::opt_u8_at))]
    pub fn opt_u8(&mut self) -> Result<Option<u8>, usize>
        ensures { Gives result self.new (opt_u8_at self.old) }
    {
        if self.byte(0, 1)? == 0 {
            return Ok(None);
        }
        Ok(Some(self.u8()?))
    }

    /// A number or none.
    #[tactic(auto, unfolding(trace_bytes::specs::Words::opt_u64_at))]
    pub fn opt_u64(&mut self) -> Result<Option<u64>, usize>
        ensures { Gives result self.new (opt_u64_at self.old) }
    {
        if self.byte(0, 1)? == 0 {
            return Ok(None);
        }
        Ok(Some(self.u64()?))
    }

    /// A member or none.
    #[tactic(auto, unfolding(trace_bytes::specs::Words::opt_member_at))]
    pub fn opt_member(&mut self) -> Result<Option<Member>, usize>
        ensures { Gives result self.new (opt_member_at self.old) }
    {
        if self.byte(0, 1)? == 0 {
            return Ok(None);
        }
        Ok(Some(self.member()?))
    }

    /// A value or none.
    #[tactic(auto, unfolding(trace_bytes::specs::Words::opt_value_at))]
    pub fn opt_value(&mut self) -> Result<Option<Value>, usize>
        ensures { Gives result self.new (opt_value_at self.old) }
    {
        if self.byte(0, 1)? == 0 {
            return Ok(None);
        }
        Ok(Some(self.value()?))
    }

    /// A row or none.
    #[tactic(auto, unfolding(trace_bytes::specs::Words::opt_row_at))]
    pub fn opt_row(&mut self) -> Result<Option<(Key, Value)>, usize>
        ensures { Gives result self.new (opt_row_at self.old) }
    {
        if self.byte(0, 1)? == 0 {
            return Ok(None);
        }
        Ok(Some(self.row()?))
    }
}
