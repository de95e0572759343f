//! Logs and lives.
ghost use Rattle.std.specs.Prelude.{◌≡◌, ◌++◌, OnOk};
ghost use Rattle.trace_write.specs.Control.{control_numbers};
ghost use Rattle.trace_bytes.specs.Lives.{control_bytes, header_bytes, header_in, life_bytes, log_bytes};
ghost use Rattle.trace_bytes.specs.Lives.{opt_control_bytes, opt_system_bytes, place_bytes, shape_bytes, signal_bytes};
ghost use Rattle.trace_bytes.specs.Lives.{slots_bytes, step_bytes, system_bytes};

use crate::output::Output;
use crate::write::lists::{Written, put_list};
use sig_core::{
    ControlSlot, HostLog, Life, LogStep, NoMemory, Place, Shape, Signal, Slots, SystemSlot,
};

impl Output {
    /// Adds a place.
    pub fn place(&mut self, place: Place) -> Result<(), NoMemory>
        ensures { OnOk result (self.new ≡ self.old ++ place_bytes place) }
    {
        self.u8(place.node)?;
        self.block(place.block)
    }

    /// Adds what stands before the body of a signal.
    pub fn header(&mut self, signal: &Signal) -> Result<(), NoMemory>
        ensures { OnOk result (self.new ≡ self.old ++ header_bytes (header_in signal.now)) }
    {
        self.host(signal.from)?;
        self.member(signal.member)?;
        self.place(signal.to)?;
        self.u64(signal.seq)?;
        self.u64(signal.stamp)?;
        self.view(signal.view.get())
    }

    /// Adds a signal with its header.
    #[tactic(auto, unfolding(trace_bytes::specs::Lives::signal_bytes))]
    pub fn signal(&mut self, signal: &Signal) -> Result<(), NoMemory>
        ensures { OnOk result (self.new ≡ self.old ++ signal_bytes signal.now) }
    {
        self.header(signal)?;
        self.body(&signal.body)
    }

    /// Adds a step.
    #[tactic(auto, unfolding(trace_bytes::specs::Lives::step_bytes))]
    pub fn step(&mut self, step: &LogStep) -> Result<(), NoMemory>
        ensures { OnOk result (self.new ≡ self.old ++ step_bytes step.now) }
    {
        self.u64(step.stamp)?;
        self.signal(step.taken.get())?;
        put_list(self, step.marks.as_slice())
    }

    /// Adds the log of a host.
    #[tactic(auto, unfolding(trace_bytes::specs::Lives::log_bytes))]
    pub fn log(&mut self, log: &HostLog) -> Result<(), NoMemory>
        ensures { OnOk result (self.new ≡ self.old ++ log_bytes log.now) }
    {
        self.host(log.host)?;
        self.u64(log.made)?;
        put_list(self, log.steps.as_slice())
    }

    /// Adds the shape of a cluster.
    pub fn shape(&mut self, shape: &Shape) -> Result<(), NoMemory>
        ensures { OnOk result (self.new ≡ self.old ++ shape_bytes shape.now) }
    {
        self.u8(shape.nodes)?;
        self.u8(shape.replicas)?;
        self.u8(shape.fragments)
    }

    /// Adds a system slot.
    pub fn system_slot(&mut self, slot: &SystemSlot) -> Result<(), NoMemory>
        ensures { OnOk result (self.new ≡ self.old ++ system_bytes slot.now) }
    {
        self.shape(&slot.shape)?;
        self.u8(slot.mask)?;
        self.u64(slot.generation)?;
        self.u64(slot.epoch)
    }

    /// Adds a control slot.
    pub fn control_slot(&mut self, slot: &ControlSlot) -> Result<(), NoMemory>
        ensures { OnOk result (self.new ≡ self.old ++ control_bytes slot.now) }
    {
        self.u8(slot.ckpt_file)?;
        self.u8(slot.parity)?;
        self.control_numbers(slot)
    }

    // The numbers of a control slot that have eight bytes.
    fn control_numbers(&mut self, slot: &ControlSlot) -> Result<(), NoMemory>
        ensures { OnOk result (self.new ≡ self.old ++ control_numbers slot.now) }
    {
        self.u64(slot.generation)?;
        self.u64(slot.serial)?;
        self.u64(slot.saved)?;
        self.u64(slot.redo_start)?;
        self.u64(slot.redo_end)?;
        self.u64(slot.ckpt_size)
    }

    fn opt_system(&mut self, slot: &Option<SystemSlot>) -> Result<(), NoMemory>
        ensures { OnOk result (self.new ≡ self.old ++ opt_system_bytes slot.now) }
    {
        match slot {
            None => self.u8(0),
            Some(slot) => {
                self.u8(1)?;
                self.system_slot(slot)
            }
        }
    }

    fn opt_control(&mut self, slot: &Option<ControlSlot>) -> Result<(), NoMemory>
        ensures { OnOk result (self.new ≡ self.old ++ opt_control_bytes slot.now) }
    {
        match slot {
            None => self.u8(0),
            Some(slot) => {
                self.u8(1)?;
                self.control_slot(slot)
            }
        }
    }

    /// Adds what a host found, without rows of its own.
    #[tactic(auto, unfolding(trace_bytes::specs::Lives::slots_bytes))]
    pub fn slots(&mut self, slots: &Slots) -> Result<(), NoMemory>
        ensures { OnOk result (self.new ≡ self.old ++ slots_bytes slots.now) }
    {
        self.host(slots.host)?;
        self.u8(slots.system_at)?;
        self.opt_system(&slots.system)?;
        self.u8(slots.control_at)?;
        self.opt_control(&slots.control)?;
        self.u8(0)
    }

    /// Adds a life.
    #[tactic(auto, unfolding(trace_bytes::specs::Lives::life_bytes))]
    pub fn life(&mut self, life: &Life) -> Result<(), NoMemory>
        ensures { OnOk result (self.new ≡ self.old ++ life_bytes life.now) }
    {
        self.u64(life.start_epoch)?;
        put_list(self, life.start_rows.as_slice())?;
        put_list(self, life.logs.as_slice())?;
        put_list(self, life.slots.as_slice())
    }
}

impl Written for LogStep {
    ghost spelled = { step_bytes };

    fn put(&self, out: &mut Output) -> Result<(), NoMemory> {
        out.step(self)
    }
}

impl Written for HostLog {
    ghost spelled = { log_bytes };

    fn put(&self, out: &mut Output) -> Result<(), NoMemory> {
        out.log(self)
    }
}

impl Written for Slots {
    ghost spelled = { slots_bytes };

    fn put(&self, out: &mut Output) -> Result<(), NoMemory> {
        out.slots(self)
    }
}
