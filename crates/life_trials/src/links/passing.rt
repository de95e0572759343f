//! Threads that pass signals. Each looks a bounded number of times, so that it ends where the other
//! one is gone.
ghost use Rattle.std.specs.Prelude.{◌≡◌};

use crate::links::signals::{numbered, some_view};
use crossbeam_queue::ArrayQueue;
use link_queue::{LINK_SIGNALS, LinkRx, LinkTx, make};
use sig_core::{Boxed, Held, NoMemory, Signal, View};
use std::alloc::Global;
use std::sync::Wait;
use std::thread;
use std::thread::Threads;

/// The most signals that are sent.
const MOST: u64 = 1 << 32;

/// How often a thread looks at a queue at most.
const LOOKS: u64 = 1 << 36;

/// The queue of a link, without its rule.
type Plain = ArrayQueue<Boxed<Signal>>;

/// Offers a signal with this number to a link, and tells whether it was taken.
fn offers<W: Wait>(
    rt: &W,
    alloc: Global,
    view: &Held<View>,
    tx: &mut LinkTx,
    seq: u64,
) -> Result<bool, NoMemory>
    requires { tx.old.from ≡ 1 }
    ensures { tx.new.from ≡ 1 }
{
    if tx.sent() >= MOST {
        return Ok(false);
    }
    let signal = numbered(alloc, view, seq)?;
    Ok(tx.offer(rt, signal).is_ok())
}

/// Sends so many signals by a link.
fn sends<W: Wait>(rt: &W, alloc: Global, mut tx: LinkTx, count: u64) -> Result<bool, NoMemory>
    requires { tx.from ≡ 1 }
{
    let view = some_view(alloc)?;
    let mut sent = 0u64;
    for _ in 0..LOOKS {
        if sent >= count {
            return Ok(true);
        }
        if offers(rt, alloc, &view, &mut tx, sent)? {
            sent = sent.saturating_add(1);
        } else {
            thread::yield_now();
        }
    }
    Ok(false)
}

/// Takes so many signals from a link, and tells whether they came in order.
fn takes<W: Wait>(rt: &W, mut rx: LinkRx, count: u64) -> bool {
    let mut taken = 0u64;
    for _ in 0..LOOKS {
        if taken >= count {
            return true;
        }
        match rx.take(rt) {
            Some(signal) if signal.get().seq == taken => taken = taken.saturating_add(1),
            Some(_) => return false,
            None => thread::yield_now(),
        }
    }
    false
}

/// The same by a queue without a rule.
fn fills<W: Wait>(rt: &W, alloc: Global, queue: &Plain, count: u64) -> Result<bool, NoMemory> {
    let view = some_view(alloc)?;
    let mut sent = 0u64;
    for _ in 0..LOOKS {
        if sent >= count {
            return Ok(true);
        }
        let signal = numbered(alloc, &view, sent)?;
        if queue.push(rt, signal).is_ok() {
            sent = sent.saturating_add(1);
        } else {
            thread::yield_now();
        }
    }
    Ok(false)
}

fn empties<W: Wait>(rt: &W, queue: &Plain, count: u64) -> bool {
    let mut taken = 0u64;
    for _ in 0..LOOKS {
        if taken >= count {
            return true;
        }
        match queue.pop(rt) {
            Some(signal) if signal.get().seq == taken => taken = taken.saturating_add(1),
            Some(_) => return false,
            None => thread::yield_now(),
        }
    }
    false
}

/// Both at once: sends so many, and takes as many.
fn converses<W: Wait>(
    rt: &W,
    alloc: Global,
    mut tx: LinkTx,
    mut rx: LinkRx,
    count: u64,
) -> Result<bool, NoMemory>
    requires { tx.from ≡ 1 }
{
    let view = some_view(alloc)?;
    let mut sent = 0u64;
    let mut taken = 0u64;
    for _ in 0..LOOKS {
        if sent >= count && taken >= count {
            return Ok(true);
        }
        if sent < count && offers(rt, alloc, &view, &mut tx, sent)? {
            sent = sent.saturating_add(1);
        }
        match rx.take(rt) {
            Some(signal) if signal.get().seq == taken => taken = taken.saturating_add(1),
            Some(_) => return Ok(false),
            None => thread::yield_now(),
        }
    }
    Ok(false)
}

/// Passes so many signals through a link, from one thread to another.
///
/// # Errors
/// `NoMemory`.
pub fn pass_by_link<R: Threads + Wait + Sync>(
    rt: &R,
    alloc: Global,
    count: u64,
) -> Result<bool, NoMemory> {
    let (tx, rx) = make(alloc, 1, 2)?;
    let (sent, taken) = thread::join(
        rt,
        move ||
            requires { tx.from ≡ 1 }
        { sends(rt, alloc, tx, count) },
        move || takes(rt, rx, count),
    );
    Ok(sent? && taken)
}

/// Passes them through the queue alone.
///
/// # Errors
/// `NoMemory`.
pub fn pass_by_queue<R: Threads + Wait + Sync>(
    rt: &R,
    alloc: Global,
    count: u64,
) -> Result<bool, NoMemory> {
    let queue = ArrayQueue::new(alloc, LINK_SIGNALS)?;
    let (sent, taken) = thread::join(
        rt,
        || fills(rt, alloc, &queue, count),
        || empties(rt, &queue, count),
    );
    Ok(sent? && taken)
}

/// Passes so many through a link each way.
///
/// # Errors
/// `NoMemory`.
pub fn pass_both_ways<R: Threads + Wait + Sync>(
    rt: &R,
    alloc: Global,
    count: u64,
) -> Result<bool, NoMemory> {
    let (there, arriving) = make(alloc, 1, 1)?;
    let (back, returning) = make(alloc, 1, 1)?;
    let (one, other) = thread::join(
        rt,
        move ||
            requires { there.from ≡ 1 }
        { converses(rt, alloc, there, returning, count) },
        move ||
            requires { back.from ≡ 1 }
        { converses(rt, alloc, back, arriving, count) },
    );
    Ok(one? && other?)
}
