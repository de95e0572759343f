//! Lists.
ghost use Rattle.std.specs.Prelude.{◌≡◌, ℕ, List, ◌++◌, OnOk};
ghost use Rattle.trace_bytes.specs.Lines.{line_bytes};
ghost use Rattle.trace_bytes.specs.Lists.{list_bytes};
ghost use Rattle.trace_bytes.specs.Marks.{mark_bytes};
ghost use Rattle.trace_bytes.specs.Operations.{answered_bytes};
ghost use Rattle.trace_bytes.specs.Numbers.{u8_bytes};
ghost use Rattle.trace_bytes.specs.Words.{change_bytes, member_bytes, members_bytes, row_bytes, view_bytes};

use crate::output::Output;
use sig_core::{
    BatchLine, Chain, Change, HeldAnswer, HeldOp, Key, Mark, Member, Members, NoMemory, Value, View,
};

/// What stands in lists.
pub trait Written {
    ghost spelled: { Self → List ℕ };

    /// Adds it.
    fn put(&self, out: &mut Output) -> Result<(), NoMemory>
        ensures { OnOk result (out.new ≡ out.old ++ spelled self.now) };
}

/// Adds a list: how many items it has, and then these.
pub fn put_list<T: Written>(out: &mut Output, items: &[T]) -> Result<(), NoMemory>
    ensures { OnOk result (out.new ≡ out.old ++ list_bytes T.spelled items.now) }
{
    out.u64(items.len() as u64)?;
    'items: for item in items {
        item.put(out)?;
    }
    Ok(())
}

impl Written for u8 {
    ghost spelled = { u8_bytes };

    fn put(&self, out: &mut Output) -> Result<(), NoMemory> {
        out.u8(*self)
    }
}

impl Written for Member {
    ghost spelled = { member_bytes };

    fn put(&self, out: &mut Output) -> Result<(), NoMemory> {
        out.member(*self)
    }
}

impl Written for (Key, Value) {
    ghost spelled = { row_bytes };

    fn put(&self, out: &mut Output) -> Result<(), NoMemory> {
        out.row(self)
    }
}

impl Written for (HeldOp, HeldAnswer) {
    ghost spelled = { answered_bytes };

    fn put(&self, out: &mut Output) -> Result<(), NoMemory> {
        out.op(self.0.get())?;
        out.answer(&self.1.get())
    }
}

impl Written for Change {
    ghost spelled = { change_bytes };

    fn put(&self, out: &mut Output) -> Result<(), NoMemory> {
        out.change(self)
    }
}

impl Written for BatchLine {
    ghost spelled = { line_bytes };

    fn put(&self, out: &mut Output) -> Result<(), NoMemory> {
        out.line(self)
    }
}

impl Written for Mark {
    ghost spelled = { mark_bytes };

    fn put(&self, out: &mut Output) -> Result<(), NoMemory> {
        out.mark(self)
    }
}

impl Output {
    /// Adds members.
    pub fn members(&mut self, members: &Members) -> Result<(), NoMemory>
        ensures { OnOk result (self.new ≡ self.old ++ members_bytes members.now) }
    {
        put_list(self, members.as_slice())
    }

    /// Adds the members of a chain.
    pub fn chain(&mut self, chain: &Chain) -> Result<(), NoMemory>
        ensures { OnOk result (self.new ≡ self.old ++ members_bytes chain.now) }
    {
        self.members(&chain.members())
    }

    /// Adds a view.
    pub fn view(&mut self, view: &View) -> Result<(), NoMemory>
        ensures { OnOk result (self.new ≡ self.old ++ view_bytes view.now) }
    {
        self.u64(view.number)?;
        self.members(&view.full)?;
        self.members(&view.starting)
    }

    /// Adds a row.
    pub fn row(&mut self, row: &(Key, Value)) -> Result<(), NoMemory>
        ensures { OnOk result (self.new ≡ self.old ++ row_bytes row.now) }
    {
        self.key(&row.0)?;
        self.value(&row.1)
    }

    /// Adds a change.
    pub fn change(&mut self, change: &Change) -> Result<(), NoMemory>
        ensures { OnOk result (self.new ≡ self.old ++ change_bytes change.now) }
    {
        self.key(&change.key)?;
        self.opt_value(&change.image)
    }
}
