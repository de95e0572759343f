//! Logs and lives.
ghost use Rattle.trace_bytes.specs.Lives.{control_at, divisor_at, header_at, life_at, log_at, opt_control_at};
ghost use Rattle.trace_bytes.specs.Lives.{opt_system_at, place_at, shape_at, signal_at, slots_at, start_epoch_at};
ghost use Rattle.trace_bytes.specs.Lives.{step_at, system_at, trace_at};
ghost use Rattle.trace_read.specs.Reading.{Gives, GivesOrWants};

use crate::input::Input;
use crate::read::bodies::read_body;
use crate::read::lists::{Readable, read_list};
use crate::stop::Stop;
use sig_core::{
    Boxed, ControlSlot, Held, HostLog, Key, Life, LogStep, Mark, Place, Shape, Signal, Slots,
    SystemSlot, Value,
};
use std::alloc::Global;
use trace_bytes::Header;

/// The least number that no start epoch has: behind an epoch with the greatest checkpoint number comes none.
const LAST_START: u64 = 0xffff_ffff_0000_0000;

impl Input<'_> {
    /// A place.
    #[tactic(auto, unfolding(trace_bytes::specs::Lives::place_at))]
    pub fn place(&mut self) -> Result<Place, usize>
        ensures { Gives result self.new (place_at self.old) }
    {
        let node = self.u8()?;
        let block = self.block()?;
        Ok(Place { node, block })
    }

    /// The shape of a cluster.
    #[tactic(auto, unfolding(trace_bytes::specs::Lives::shape_at))]
    pub fn shape(&mut self) -> Result<Shape, usize>
        ensures { Gives result self.new (shape_at self.old) }
    {
        let nodes = self.byte(1, 8)?;
        let replicas = self.divisor(nodes)?;
        let fragments = self.byte(1, 32)?;
        Ok(Shape {
            nodes,
            replicas,
            fragments,
        })
    }

    // A number of replicas, which divides that of the nodes.
    #[tactic(auto, unfolding(trace_bytes::specs::Lives::divisor_at))]
    fn divisor(&mut self, nodes: u8) -> Result<u8, usize>
        ensures { Gives result self.new (divisor_at nodes self.old) }
    {
        let left = self.left();
        let replicas = self.byte(1, 4)?;
        if nodes % replicas != 0 {
            return Err(left);
        }
        Ok(replicas)
    }

    /// A system slot.
    #[tactic(auto, unfolding(trace_bytes::specs::Lives::system_at))]
    pub fn system_slot(&mut self) -> Result<SystemSlot, usize>
        ensures { Gives result self.new (system_at self.old) }
    {
        let shape = self.shape()?;
        let mask = self.u8()?;
        let generation = self.u64()?;
        let epoch = self.u64()?;
        Ok(SystemSlot {
            shape,
            mask,
            generation,
            epoch,
        })
    }

    /// A control slot.
    #[tactic(auto, unfolding(trace_bytes::specs::Lives::control_at))]
    pub fn control_slot(&mut self) -> Result<ControlSlot, usize>
        ensures { Gives result self.new (control_at self.old) }
    {
        let ckpt_file = self.byte(2, 3)?;
        let parity = self.byte(0, 1)?;
        let generation = self.u64()?;
        let serial = self.u64()?;
        let saved = self.u64()?;
        let redo_start = self.u64()?;
        let redo_end = self.u64()?;
        let ckpt_size = self.u64()?;
        Ok(ControlSlot {
            ckpt_file,
            parity,
            generation,
            serial,
            saved,
            redo_start,
            redo_end,
            ckpt_size,
        })
    }

    #[tactic(auto, unfolding(trace_bytes::specs::Lives::opt_system_at))]
    fn opt_system(&mut self) -> Result<Option<SystemSlot>, usize>
        ensures { Gives result self.new (opt_system_at self.old) }
    {
        if self.byte(0, 1)? == 0 {
            return Ok(None);
        }
        Ok(Some(self.system_slot()?))
    }

    #[tactic(auto, unfolding(trace_bytes::specs::Lives::opt_control_at))]
    fn opt_control(&mut self) -> Result<Option<ControlSlot>, usize>
        ensures { Gives result self.new (opt_control_at self.old) }
    {
        if self.byte(0, 1)? == 0 {
            return Ok(None);
        }
        Ok(Some(self.control_slot()?))
    }

    /// What a host found, without rows of its own.
    #[tactic(auto, unfolding(trace_bytes::specs::Lives::slots_at))]
    pub fn slots(&mut self) -> Result<Slots, usize>
        ensures { Gives result self.new (slots_at self.old) }
    {
        let host = self.host()?;
        let system_place = self.byte(0, 1)?;
        let system = self.opt_system()?;
        let control_place = self.byte(0, 1)?;
        let control = self.opt_control()?;
        self.byte(0, 0)?;
        Ok(Slots {
            host,
            system_at: system_place,
            system,
            control_at: control_place,
            control,
            own: None,
        })
    }

    // The epoch that a life restored.
    #[tactic(auto, unfolding(trace_bytes::specs::Lives::start_epoch_at))]
    fn start_epoch(&mut self) -> Result<u64, usize>
        ensures { Gives result self.new (start_epoch_at self.old) }
    {
        let left = self.left();
        let epoch = self.u64()?;
        if epoch >= LAST_START {
            return Err(left.saturating_sub(3));
        }
        Ok(epoch)
    }

    // What stands before the body of a signal.
    #[tactic(auto, unfolding(trace_bytes::specs::Lives::header_at))]
    fn header(&mut self) -> Result<Header, usize>
        ensures { Gives result self.new (header_at self.old) }
    {
        let from = self.host()?;
        let member = self.member()?;
        let to = self.place()?;
        let seq = self.u64()?;
        let stamp = self.u64()?;
        let view = self.view()?;
        Ok(Header {
            from,
            member,
            to,
            seq,
            stamp,
            view,
        })
    }
}

/// A signal with its header.
///
/// # Errors
/// Where a byte doesn't fit, and want of memory, as of all that follow.
#[tactic(auto, unfolding(trace_bytes::specs::Lives::signal_at), using(crate::proofs::Stops::stops))]
pub fn read_signal(alloc: Global, input: &mut Input<'_>) -> Result<Signal, Stop>
    ensures { GivesOrWants result input.new (signal_at input.old) }
{
    let header = input.header()?;
    let body = read_body(alloc, input)?;
    let view = Held::new(alloc, header.view)?;
    Ok(Signal {
        from: header.from,
        member: header.member,
        to: header.to,
        seq: header.seq,
        stamp: header.stamp,
        view,
        body,
    })
}

/// A step.
#[tactic(auto, unfolding(trace_bytes::specs::Lives::step_at), using(crate::proofs::Stops::stops))]
pub fn read_step(alloc: Global, input: &mut Input<'_>) -> Result<LogStep, Stop>
    ensures { GivesOrWants result input.new (step_at input.old) }
{
    let stamp = input.u64()?;
    let signal = read_signal(alloc, input)?;
    let marks = read_list::<Mark>(alloc, input)?;
    Ok(LogStep {
        stamp,
        taken: Boxed::new(alloc, signal)?,
        marks,
    })
}

/// The log of a host.
#[tactic(auto, unfolding(trace_bytes::specs::Lives::log_at), using(crate::proofs::Stops::stops))]
pub fn read_log(alloc: Global, input: &mut Input<'_>) -> Result<HostLog, Stop>
    ensures { GivesOrWants result input.new (log_at input.old) }
{
    let host = input.host()?;
    let made = input.u64()?;
    let steps = read_list::<LogStep>(alloc, input)?;
    Ok(HostLog { host, made, steps })
}

/// A life.
#[tactic(auto, unfolding(trace_bytes::specs::Lives::life_at), using(crate::proofs::Stops::stops))]
pub fn read_life(alloc: Global, input: &mut Input<'_>) -> Result<Life, Stop>
    ensures { GivesOrWants result input.new (life_at input.old) }
{
    let start_epoch = input.start_epoch()?;
    let start_rows = read_list::<(Key, Value)>(alloc, input)?;
    let logs = read_list::<HostLog>(alloc, input)?;
    let slots = read_list::<Slots>(alloc, input)?;
    Ok(Life {
        start_epoch,
        start_rows,
        logs,
        slots,
    })
}

/// A shape, and then a life.
#[tactic(auto, unfolding(trace_bytes::specs::Lives::trace_at), using(crate::proofs::Stops::stops))]
pub fn read_shape_and_life(alloc: Global, input: &mut Input<'_>) -> Result<(Shape, Life), Stop>
    ensures { GivesOrWants result input.new (trace_at input.old) }
{
    let shape = input.shape()?;
    let life = read_life(alloc, input)?;
    Ok((shape, life))
}

impl Readable for LogStep {
    ghost reader = { step_at };

    fn read(alloc: Global, input: &mut Input<'_>) -> Result<LogStep, Stop> {
        read_step(alloc, input)
    }
}

impl Readable for HostLog {
    ghost reader = { log_at };

    fn read(alloc: Global, input: &mut Input<'_>) -> Result<HostLog, Stop> {
        read_log(alloc, input)
    }
}

impl Readable for Slots {
    ghost reader = { slots_at };

    fn read(_alloc: Global, input: &mut Input<'_>) -> Result<Slots, Stop> {
        Ok(input.slots()?)
    }
}
