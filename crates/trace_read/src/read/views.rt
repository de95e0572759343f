//! Members, views, rows and changes.
ghost use Rattle.std.specs.Prelude.{◌≡◌, ◌≤◌, IfOk};
ghost use Rattle.trace_bytes.specs.Lists.{few_at, zeros_at};
ghost use Rattle.trace_read.specs.Reading.{Gives};
ghost use Rattle.trace_bytes.specs.Words.{change_at, members_at, row_at, view_at};

use crate::input::Input;
use sig_core::{Change, Key, Members, Value, View};

impl Input<'_> {
    /// A number of at most `most`, in eight bytes.
    #[tactic(auto, unfolding(trace_bytes::specs::Lists::few_at))]
    pub fn few(&mut self, most: u8) -> Result<u8, usize>
        ensures read { Gives result self.new (few_at most self.old) }
        ensures most { IfOk result (λ number. number ≤ most) }
    {
        self.zeros()?;
        self.byte(0, most)
    }

    // Seven bytes 0.
    #[tactic(auto, unfolding(trace_bytes::specs::Lists::zeros_at))]
    fn zeros(&mut self) -> Result<u8, usize>
        ensures { Gives result self.new (zeros_at 7 self.old) }
    {
        self.byte(0, 0)?;
        self.byte(0, 0)?;
        self.byte(0, 0)?;
        self.byte(0, 0)?;
        self.byte(0, 0)?;
        self.byte(0, 0)?;
        self.byte(0, 0)?;
        Ok(0)
    }

    /// At most eight members.
    #[tactic(auto, unfolding(trace_bytes::specs::Words::members_at, trace_bytes::specs::Lists::short_list_at))]
    pub fn members(&mut self) -> Result<Members, usize>
        ensures { Gives result self.new (members_at self.old) }
    {
        let count = self.few(8)?;
        let mut members = Members::new();
        'members: for _ in 0..count {
            let member = self.member()?;
            members.push(member);
        }
        Ok(members)
    }

    /// A view.
    #[tactic(auto, unfolding(trace_bytes::specs::Words::view_at))]
    pub fn view(&mut self) -> Result<View, usize>
        ensures { Gives result self.new (view_at self.old) }
    {
        let number = self.u64()?;
        let full = self.members()?;
        let starting = self.members()?;
        Ok(View {
            number,
            full,
            starting,
        })
    }

    /// A row.
    #[tactic(auto, unfolding(trace_bytes::specs::Words::row_at))]
    pub fn row(&mut self) -> Result<(Key, Value), usize>
        ensures { Gives result self.new (row_at self.old) }
    {
        let key = self.key()?;
        let value = self.value()?;
        Ok((key, value))
    }

    /// A change of a row.
    #[tactic(auto, unfolding(trace_bytes::specs::Words::change_at))]
    pub fn change(&mut self) -> Result<Change, usize>
        ensures { Gives result self.new (change_at self.old) }
    {
        let key = self.key()?;
        let image = self.opt_value()?;
        Ok(Change { key, image })
    }
}
