//! Serving the queue of a lock.
ghost use Rattle.std.specs.Prelude.{◌≡◌, ◌≤◌, ◌+◌, ◌++◌, true, length, map, take, drop};
ghost use Rattle.std.specs.Vec.{vec_capacity};
ghost use Rattle.row_locks.specs.Orderly.{are_waiting_once, none_has_enough};
ghost use Rattle.row_locks.specs.Rows.{may_hold, served};
ghost use Rattle.row_locks.specs.Serving.{granted_to, shared_run};

use crate::claim::{Holder, Wait};
use crate::holders::{agrees_with, hold};
use crate::mode::{Mode, is_shared};
use crate::queue::is_open;

/// Serves the queue in order, and answers how many became holders: these are the last ones. Takes
/// no memory. If the first request is exclusive, it alone can be granted, and if it is shared, all
/// shared requests that stand first and are open can; so each list is gone through only a few
/// times.
pub fn serve(holders: &mut Vec<Holder>, queue: &mut Vec<Wait>) -> usize
    requires room { length holders.old.items + length queue.old.items ≤ vec_capacity holders.old }
    requires once { are_waiting_once queue.old.items ≡ true }
    requires in_need { none_has_enough holders.old.items queue.old.items ≡ true }
    ensures holders { holders.new.items ≡ (served 0 holders.old.items queue.old.items).lock.holders }
    ensures queue { queue.new.items ≡ (served 0 holders.old.items queue.old.items).lock.queue }
    ensures granted { result ≡ (served 0 holders.old.items queue.old.items).granted }
    ensures room { length holders.new.items + length queue.new.items ≤ vec_capacity holders.new }
{
    if queue.is_empty() {
        return 0;
    }
    let first = queue[0];
    if !may_hold(first, holders) {
        return 0;
    }
    match first.mode {
        Mode::Shared => share(holders, queue),
        Mode::Exclusive => {
            queue.remove(0);
            hold(first.tx, first.mode, holders);
            1
        }
    }
}

// Whether a waiter that stands first is granted the lock.
fn may_hold(wait: Wait, holders: &[Holder]) -> bool
    ensures { result ≡ may_hold wait holders.now }
{
    is_open(wait) && agrees_with(wait.tx, wait.mode, holders)
}

// Grants the shared requests that stand first, of transactions that hold nothing.
fn share(holders: &mut Vec<Holder>, queue: &mut Vec<Wait>) -> usize
    requires { length holders.old.items + length queue.old.items ≤ vec_capacity holders.old }
    ensures holders { holders.new.items ≡ holders.old.items ++ map granted_to (take result queue.old.items) }
    ensures queue { queue.new.items ≡ drop result queue.old.items }
    ensures granted { result ≡ shared_run queue.old.items }
    ensures room { length holders.new.items + length queue.new.items ≤ vec_capacity holders.new }
{
    let granted = shared_run(queue);
    hold_all(&queue[..granted], holders);
    queue.drain(..granted);
    granted
}

// How many shared requests that are open stand first.
fn shared_run(queue: &[Wait]) -> usize
    ensures { result ≡ shared_run queue.now }
{
    queue
        .iter()
        .take_while(|wait| is_open(**wait) && is_shared(wait.mode))
        .count()
}

// Makes each of these the last holder in turn. Takes no memory.
#[tactic(auto, using(crate::proofs::QueueLemmas::push_one_more))]
fn hold_all(waits: &[Wait], holders: &mut Vec<Holder>)
    requires { length holders.old.items + length waits.now ≤ vec_capacity holders.old }
    ensures holders { holders.new.items ≡ holders.old.items ++ map granted_to waits.now }
    ensures capacity { vec_capacity holders.new ≡ vec_capacity holders.old }
{
    for wait in waits {
        holders.push_reserved(wait.granted());
    }
}
