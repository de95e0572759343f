//! What no clause says of a link: that it takes what it has room for and gives what it holds. That two threads pass
//! signals through links, one each way, is what `life_trials` does.
ghost use Rattle.std.specs.Prelude.{◌≡◌, IfOk};
ghost use Rattle.link_queue.specs.End.{IsSentBy};

use crate::wrong::Wrong;
use link_queue::{LinkRx, LinkTx, compare, make};
use sig_core::{
    Body, Boxed, CLIENT, Held, HostId, HostSignal, Member, Members, NoMemory, Signal, View, Work,
};
use std::alloc::Global;
use std::sync::Wait;

const NOBODY: Member = Member { node: 0, start: 0 };

// No test sends more.
const MOST: u64 = 1 << 32;

// A signal of host 1 with this number.
fn numbered(alloc: Global, view: &Held<View>, seq: u64) -> Result<Boxed<Signal>, NoMemory>
    ensures { IfOk result (λ signal. IsSentBy 1 signal) }
{
    let signal = Signal {
        from: HostId(1),
        member: NOBODY,
        to: CLIENT,
        seq,
        stamp: seq,
        view: view.share()?,
        body: Body::Host(HostSignal::Continue {
            work: Work::Members,
            at: 0,
        }),
    };
    Boxed::new(alloc, signal)
}

fn some_view(alloc: Global) -> Result<Held<View>, NoMemory> {
    Held::new(
        alloc,
        View {
            number: 1,
            full: Members::new(),
            starting: Members::new(),
        },
    )
}

// Offers the signal of host 1 with this number, and tells whether the link took it.
fn offers<W: Wait>(
    rt: &W,
    alloc: Global,
    view: &Held<View>,
    tx: &mut LinkTx,
    seq: u64,
) -> Result<bool, NoMemory>
    requires { tx.old.from ≡ 1 }
    ensures { tx.new.from ≡ 1 }
{
    if tx.sent() >= MOST {
        return Ok(false);
    }
    let signal = numbered(alloc, view, seq)?;
    match tx.offer(rt, signal) {
        Ok(()) => Ok(true),
        Err(_) => Ok(false),
    }
}

// The number of the signal that is taken.
fn takes<W: Wait>(rt: &W, rx: &mut LinkRx) -> Option<u64> {
    match rx.take(rt) {
        Some(signal) => Some(signal.get().seq),
        None => None,
    }
}

// Offers the signals from this number up to another, and tells how many of them the link took.
fn offers_all<W: Wait>(
    rt: &W,
    alloc: Global,
    tx: &mut LinkTx,
    from: u64,
    to: u64,
) -> Result<u64, NoMemory>
    requires { tx.old.from ≡ 1 }
    ensures { tx.new.from ≡ 1 }
{
    let view = some_view(alloc)?;
    let mut taken = 0u64;
    for seq in from..to {
        if offers(rt, alloc, &view, tx, seq)? {
            taken = taken.saturating_add(1);
        }
    }
    Ok(taken)
}

// Whether so many signals were sent and taken.
fn has_passed(tx: &LinkTx, rx: &LinkRx, sent: u64, taken: u64) -> bool {
    tx.sent() == sent && rx.taken() == taken
}

#[test]
fn a_link_begins_empty(rt: HostRuntime) -> Result<(), Wrong> {
    let (tx, mut rx) = make(rt.alloc(), 1, 2)?;
    assert!(rt; takes(&rt, &mut rx).is_none());
    assert!(rt; has_passed(&tx, &rx, 0, 0));
    Ok(())
}

#[test]
fn a_signal_that_stands_alone_is_taken(rt: HostRuntime) -> Result<(), Wrong> {
    let (mut tx, mut rx) = make(rt.alloc(), 1, 2)?;
    assert!(rt; offers_all(&rt, rt.alloc(), &mut tx, 7, 8)? == 1);
    assert!(rt; takes(&rt, &mut rx) == Some(7) && takes(&rt, &mut rx).is_none());
    assert!(rt; has_passed(&tx, &rx, 1, 1));
    Ok(())
}

#[test]
fn both_ends_go_on_after_they_are_compared(rt: HostRuntime) -> Result<(), Wrong> {
    let (mut tx, mut rx) = make(rt.alloc(), 1, 2)?;
    compare(&mut tx, &mut rx);
    assert!(rt; takes(&rt, &mut rx).is_none());
    assert!(rt; tx.sent() == rx.taken());
    Ok(())
}

// Whether a link that has room for 128 takes these of the signals that are offered, and no more.
fn fills<W: Wait>(rt: &W, alloc: Global, tx: &mut LinkTx) -> Result<bool, NoMemory>
    requires { tx.old.from ≡ 1 }
    ensures { tx.new.from ≡ 1 }
{
    let first = offers_all(rt, alloc, tx, 0, 128)?;
    let more = offers_all(rt, alloc, tx, 128, 129)?;
    Ok(first == 128 && more == 0 && tx.sent() == 128)
}

// Whether it then takes the signal of one number, and not that of the next.
fn takes_one<W: Wait>(rt: &W, alloc: Global, tx: &mut LinkTx, seq: u64) -> Result<bool, NoMemory>
    requires { tx.old.from ≡ 1 }
    ensures { tx.new.from ≡ 1 }
{
    let one = offers_all(rt, alloc, tx, seq, seq.saturating_add(1))?;
    let next = seq.saturating_add(1);
    let more = offers_all(rt, alloc, tx, next, next.saturating_add(1))?;
    Ok(one == 1 && more == 0)
}

#[test]
fn a_full_link_refuses_until_one_is_taken(rt: HostRuntime) -> Result<(), Wrong> {
    let (mut tx, mut rx) = make(rt.alloc(), 1, 2)?;
    assert!(rt; fills(&rt, rt.alloc(), &mut tx)?);
    assert!(rt; takes(&rt, &mut rx) == Some(0));
    assert!(rt; takes_one(&rt, rt.alloc(), &mut tx, 129)?);
    assert!(rt; takes(&rt, &mut rx) == Some(1) && rx.taken() == 2);
    Ok(())
}
