//! Signals that pass between two threads.

mod passing;
mod signals;

use crate::stopped::Stopped;
use passing::{pass_both_ways, pass_by_link, pass_by_queue};
use sig_core::NoMemory;
use std::alloc::Global;
use std::sync::Wait;
use std::thread::Threads;

/// What the signals go through.
#[derive(Clone, Copy)]
enum Way {
    /// A link.
    Link,
    /// The queue of a link without its rule.
    Queue,
    /// Two links, one each way, with as many signals on each.
    Both,
}

/// So many signals, and what they go through.
#[derive(Clone, Copy)]
pub struct Passage {
    way: Way,
    count: u64,
}

fn way_of(word: &str) -> Option<Way> {
    match word {
        "link" => Some(Way::Link),
        "queue" => Some(Way::Queue),
        "both" => Some(Way::Both),
        _ => None,
    }
}

fn passage_of(way: &str, count: &str) -> Option<Passage> {
    Some(Passage {
        way: way_of(way)?,
        count: count.parse::<u64>().ok()?,
    })
}

/// What the first two words ask to be passed, and the words behind them.
pub fn split_passage(words: &[String]) -> (Option<Passage>, &[String]) {
    if let [way, count, behind @ ..] = words {
        if let Some(passage) = passage_of(way.as_str(), count.as_str()) {
            return (Some(passage), behind);
        }
    }
    (None, words)
}

// Whether all came, in order.
fn passes<R: Threads + Wait + Sync>(
    rt: &R,
    alloc: Global,
    passage: Passage,
) -> Result<bool, NoMemory> {
    match passage.way {
        Way::Link => pass_by_link(rt, alloc, passage.count),
        Way::Queue => pass_by_queue(rt, alloc, passage.count),
        Way::Both => pass_both_ways(rt, alloc, passage.count),
    }
}

/// Passes signals, tells whether all came, in order, and says so.
///
/// # Errors
/// A call of the system that failed, or want of memory.
pub fn try_passage<R: Threads + Wait + Sync>(
    rt: &HostRuntime,
    handles: &R,
    passage: Passage,
) -> Result<bool, Stopped> {
    let all_came = passes(handles, rt.alloc(), passage)?;
    if all_came {
        println!(rt; "{} signals, in order", passage.count)?;
    } else {
        println!(rt; "lost, or out of order")?;
    }
    Ok(all_came)
}
