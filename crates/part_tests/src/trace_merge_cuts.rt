//! Merges and cuts of small logs, made by hand.
use crate::wrong::Wrong;
use sig_core::{
    ApiReq, Body, Boxed, CLIENT, Held, HostId, HostLog, HostSignal, LogStep, Marks, Member,
    Members, NoMemory, Seq, Signal, StopCause, View, Work,
};
use std::alloc::Global;
use trace_merge::{CutFault, RunStep, is_closed, merge};

const NOBODY: Member = Member { node: 0, start: 0 };

// A step with this stamp, that took a signal of a host, which had that stamp.
fn step(
    alloc: Global,
    stamp: u64,
    from: u32,
    sent_at: u64,
    body: Body,
) -> Result<LogStep, NoMemory> {
    let view = View {
        number: 1,
        full: Members::new(),
        starting: Members::new(),
    };
    let taken = Signal {
        from: HostId(from),
        member: NOBODY,
        to: CLIENT,
        seq: 0,
        stamp: sent_at,
        view: Held::new(alloc, view)?,
        body,
    };
    Ok(LogStep {
        stamp,
        taken: Boxed::new(alloc, taken)?,
        marks: Marks::new(alloc),
    })
}

// The body of a request of the shell.
fn request() -> Body {
    Body::Host(HostSignal::Continue {
        work: Work::Request(ApiReq::Micro),
        at: 0,
    })
}

// The body of what a link gives.
fn round() -> Body {
    Body::Host(HostSignal::Round)
}

// A log of a host.
fn log(alloc: Global, host: u32, made: u64) -> HostLog {
    HostLog {
        host: HostId(host),
        made,
        steps: Seq::new(alloc),
    }
}

// The shell's host is asked, and asks host 1; host 2 tells host 1 of it, and host 1 the shell's.
fn asked(alloc: Global) -> Result<Vec<HostLog>, NoMemory> {
    let mut shell = log(alloc, 0, 0);
    shell.steps.push(step(alloc, 1, 0, 0, request())?)?;
    shell.steps.push(step(alloc, 4, 1, 3, round())?)?;
    let mut one = log(alloc, 1, 0);
    one.steps.push(step(alloc, 2, 0, 1, round())?)?;
    one.steps.push(step(alloc, 3, 2, 2, round())?)?;
    let mut two = log(alloc, 2, 0);
    two.steps.push(step(alloc, 2, 0, 1, round())?)?;
    let mut logs = Vec::new(alloc);
    logs.push(shell)?;
    logs.push(one)?;
    logs.push(two)?;
    Ok(logs)
}

// A cut of logs, and the host and the step whose signal was sent outside; nothing where it is closed.
type Cut = (&'static [usize], Option<(u32, usize)>);

// The first cut of which something else is said.
fn first_wrong(logs: &[HostLog], cuts: &[Cut]) -> Option<usize> {
    for (at, (cut, outside)) in cuts.iter().enumerate() {
        let found = match is_closed(logs, cut) {
            Ok(()) => None,
            Err(CutFault { host, step }) => Some((host.0, step)),
        };
        if found != *outside {
            return Some(at);
        }
    }
    None
}

// Whether a run is of these steps of hosts, in order.
fn has_steps(run: &[RunStep], wanted: &[(u32, usize)]) -> bool {
    if run.len() != wanted.len() {
        return false;
    }
    for (at, (host, step)) in run.iter().zip(wanted) {
        if at.host.0 != *host || at.step != *step {
            return false;
        }
    }
    true
}

#[test]
fn logs_sort_by_stamp_and_host(rt: HostRuntime) -> Result<(), Wrong> {
    let alloc = rt.alloc();
    let logs = asked(alloc)?;
    let run = merge(alloc, logs.as_slice())?;
    let wanted = [(0, 0), (1, 0), (2, 0), (1, 1), (0, 1)];
    assert!(rt; has_steps(run.as_slice(), &wanted));
    Ok(())
}

#[test]
fn no_logs_are_the_empty_run(rt: HostRuntime) -> Result<(), Wrong> {
    let run = merge(rt.alloc(), &[])?;
    assert!(rt; run.len() == 0);
    assert!(rt; first_wrong(&[], &[(&[], None)]).is_none());
    Ok(())
}

// Of the shell's host, which is asked.
const OF_ASKED: [Cut; 9] = [
    (&[0, 0, 0], None),
    (&[1, 0, 0], None),
    (&[1, 2, 1], None),
    (&[2, 2, 1], None),
    (&[0, 1, 1], Some((1, 0))),
    (&[1, 2, 0], Some((1, 1))),
    (&[2, 1, 1], Some((0, 1))),
    (&[9, 9, 9], None),
    (&[1, 2], Some((1, 1))),
];

#[test]
fn a_signal_from_outside_is_told(rt: HostRuntime) -> Result<(), Wrong> {
    let logs = asked(rt.alloc())?;
    assert_eq!(rt; first_wrong(logs.as_slice(), &OF_ASKED), None);
    Ok(())
}

// A host that the shell's makes later.
fn made(alloc: Global) -> Result<Vec<HostLog>, NoMemory> {
    let mut shell = log(alloc, 0, 0);
    shell.steps.push(step(alloc, 1, 0, 0, request())?)?;
    shell.steps.push(step(alloc, 4, 0, 1, round())?)?;
    let mut later = log(alloc, 1, 4);
    later.steps.push(step(alloc, 5, 1, 4, round())?)?;
    let mut logs = Vec::new(alloc);
    logs.push(shell)?;
    logs.push(later)?;
    Ok(logs)
}

const OF_MADE: [Cut; 3] = [(&[2, 1], None), (&[1, 0], None), (&[1, 1], Some((1, 0)))];

#[test]
fn a_host_made_outside_is_told(rt: HostRuntime) -> Result<(), Wrong> {
    let logs = made(rt.alloc())?;
    assert_eq!(rt; first_wrong(logs.as_slice(), &OF_MADE), None);
    Ok(())
}

// The log of a host that takes one signal of its own, which it hasn't sent.
fn alone(alloc: Global, body: Body) -> Result<Vec<HostLog>, NoMemory> {
    let mut one = log(alloc, 0, 0);
    one.steps.push(step(alloc, 3, 0, 7, body)?)?;
    let mut logs = Vec::new(alloc);
    logs.push(one)?;
    Ok(logs)
}

#[test]
fn a_request_was_not_sent_outside(rt: HostRuntime) -> Result<(), Wrong> {
    let logs = alone(rt.alloc(), request())?;
    assert_eq!(rt; first_wrong(logs.as_slice(), &[(&[1], None)]), None);
    let others = alone(rt.alloc(), round())?;
    assert_eq!(rt;
        first_wrong(others.as_slice(), &[(&[1], Some((0, 0)))]),
        None
    );
    Ok(())
}

// The body of a stop that a host asks of itself, or that tells of one.
fn closing() -> Body {
    Body::Host(HostSignal::Closed {
        cause: StopCause::Memory,
    })
}

// Host 1 stops, and host 2 is told.
fn stopped(alloc: Global) -> Result<Vec<HostLog>, NoMemory> {
    let mut logs = Vec::new(alloc);
    logs.push(log(alloc, 0, 0))?;
    let mut stopped = log(alloc, 1, 0);
    stopped.steps.push(step(alloc, 3, 1, 7, closing())?)?;
    logs.push(stopped)?;
    let mut told = log(alloc, 2, 0);
    told.steps.push(step(alloc, 3, 1, 7, closing())?)?;
    logs.push(told)?;
    Ok(logs)
}

const OF_STOPPED: [Cut; 2] = [(&[0, 1, 0], None), (&[0, 1, 1], Some((2, 0)))];

#[test]
fn a_stop_of_its_own_was_not_sent_outside(rt: HostRuntime) -> Result<(), Wrong> {
    let logs = stopped(rt.alloc())?;
    assert_eq!(rt; first_wrong(logs.as_slice(), &OF_STOPPED), None);
    Ok(())
}
