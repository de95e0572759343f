//! A life worked out by hand, and its bytes.
use crate::fault::RunFault;
use sig_core::{
    BlockId, Body, Boxed, ClientSignal, Held, HeldOp, HostId, HostLog, Key, Life, LogStep, Mark,
    Member, Members, Op, Outcome, Place, Seq, Shape, Signal, Slots, SystemSlot, TxId, Value, View,
};
use std::alloc::Global;

/// The trace of `a_life`.
pub const TRACE: [u8; 223] = [
    2, 2, 4, 0, 0, 0, 7, 0, 0, 1, 2, 0, 0, 0, 0, 0, 0, 0, 1, 2, b'b', b'c', 0, 0, 0, 0, 0, 0, 0, 0,
    1, 0, 0, 0, 2, 0, 0, 0, 0, 0, 0, 0, 0, 0, 0, 0, 0, 0, 0, 0, 1, 0, 0, 0, 0, 0, 0, 0, 5, 0, 0, 0,
    0, 0, 0, 0, 0, 0, 1, 3, 0, 0, 0, 0, 0, 0, 0, 1, 0, 0, 0, 0, 0, 0, 0, 4, 0, 0, 0, 0, 0, 0, 0, 1,
    0, 0, 0, 0, 0, 0, 0, 2, 1, 0, 0, 0, 0, 2, 0, 0, 0, 0, 0, 0, 0, 0, 0, 0, 0, 0, 8, 1, 0, 0, 0, 0,
    0, 0, 0, 0, 0, 0, 0, 1, 2, 1, b'a', 1, b'1', 0, 0, 0, 0, 0, 0, 0, 2, 0, 1, 0, 0, 0, 0, 0, 0, 0,
    0, 0, 0, 0, 1, 1, b'a', 7, 1, 0, 0, 0, 0, 0, 0, 0, 0, 0, 0, 0, 1, 0, 0, 0, 0, 1, 0, 0, 0, 0, 0,
    0, 0, 0, 0, 0, 0, 1, 0, 0, 0, 3, 0, 1, 2, 2, 4, 3, 0, 0, 0, 0, 0, 0, 0, 1, 0, 0, 0, 7, 0, 0, 1,
    2, 1, 0, 0,
];

/// The place in it where the only step begins.
pub const STEP: usize = 51;

/// The place behind that step.
pub const STEP_END: usize = 186;

/// The shape of its cluster.
pub const SHAPE: Shape = Shape {
    nodes: 2,
    replicas: 2,
    fragments: 4,
};

// The epoch that it restored.
const EPOCH: u64 = 7 * 0x1_0000_0000 + 258;

fn the_put() -> TxId {
    TxId {
        tc: 1,
        start: 0,
        seq: 1,
    }
}

// A view of nodes 1 and 2.
fn a_view() -> View {
    let mut full = Members::new();
    full.push(Member { node: 1, start: 0 });
    full.push(Member { node: 2, start: 0 });
    View {
        number: 1,
        full,
        starting: Members::new(),
    }
}

// The client asks the coordinator of node 1 to put a row.
fn a_signal(alloc: Global) -> Result<Signal, RunFault> {
    let op = HeldOp::new(alloc, Op::Put(Key::new(b"a")?, Value::new(b"1")?))?;
    Ok(Signal {
        from: HostId(0),
        member: Member { node: 0, start: 0 },
        to: Place {
            node: 1,
            block: BlockId::Tc,
        },
        seq: 1,
        stamp: 4,
        view: Held::new(alloc, a_view())?,
        body: Body::Client(ClientSignal::TcKeyReq { tx: the_put(), op }),
    })
}

/// The step in which that coordinator takes it, with marks that no coordinator makes.
///
/// # Errors
/// Want of memory.
pub fn a_step(alloc: Global) -> Result<LogStep, RunFault> {
    let mut marks = Seq::new(alloc);
    marks.push(Mark::Prepared {
        tx: the_put(),
        key: Key::new(b"a")?,
    })?;
    marks.push(Mark::Reported {
        tx: the_put(),
        outcome: Outcome::Committed(0x1_0000_0000),
    })?;
    Ok(LogStep {
        stamp: 5,
        taken: Boxed::new(alloc, a_signal(alloc)?)?,
        marks,
    })
}

// The log of that coordinator.
fn a_log(alloc: Global) -> Result<HostLog, RunFault> {
    let mut steps = Seq::new(alloc);
    steps.push(a_step(alloc)?)?;
    Ok(HostLog {
        host: HostId(2),
        made: 0,
        steps,
    })
}

/// What a host of it found.
pub fn found_slots() -> Slots {
    Slots {
        host: HostId(3),
        system_at: 0,
        system: Some(SystemSlot {
            shape: SHAPE,
            mask: 3,
            generation: 1,
            epoch: EPOCH,
        }),
        control_at: 1,
        control: None,
        own: None,
    }
}

/// A life of one row, one step and one disk.
///
/// # Errors
/// Want of memory.
pub fn a_life(alloc: Global, slots: Slots) -> Result<Life, RunFault> {
    let mut start_rows = Seq::new(alloc);
    start_rows.push((Key::new(b"bc")?, Value::new(b"")?))?;
    let mut logs = Seq::new(alloc);
    logs.push(a_log(alloc)?)?;
    let mut found = Seq::new(alloc);
    found.push(slots)?;
    Ok(Life {
        start_epoch: EPOCH,
        start_rows,
        logs,
        slots: found,
    })
}
