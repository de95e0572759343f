//! Which of the decided transactions took effect.
ghost use Rattle.std.specs.Prelude.{◌≡◌, Bool, true};
ghost use Rattle.sig_core.specs.declared.mark.Mark.{Mark};
ghost use Rattle.std.specs.List.{list_any};
ghost use Rattle.world_core.specs.History.{is_applied, is_done, is_kept, is_reported};
ghost use Rattle.world_core.specs.Marks.{have_mark};
ghost use Rattle.world_core.specs.World.{logs_at};
ghost use Rattle.trace_check.specs.Histories.{any_shows, is_sign};

use crate::entries::same_tx;
use crate::history::steps_of;
use sig_core::{Answer, Entry, HostLog, LogStep, Mark, Op, Outcome, TxId};

// So many steps are near.
const NEAR: usize = 256;

/// Whether a decided transaction took effect: one that writes where a row of it was applied, and another one where it
/// was reported committed.
#[tactic(auto, using(crate::proofs::HistoryLemmas::kept_by))]
pub fn is_kept(logs: &[HostLog], hosts: u32, entry: &Entry) -> bool
    ensures { result ≡ is_kept hosts (logs_at logs.now) entry.now }
{
    have_sign(
        logs,
        hosts,
        entry.stamp,
        writes(entry.ops.as_slice()),
        entry.tx,
    )
}

// Whether one of the answers is that a write took effect.
fn writes(ops: &[(Op, Answer)]) -> bool
    ensures { result ≡ list_any (λ op. is_done op.1) ops.now }
{
    for op in ops {
        if is_done(&op.1) {
            return true;
        }
    }
    false
}

fn is_done(answer: &Answer) -> bool
    ensures { result ≡ is_done answer.now }
{
    match answer {
        Answer::Done => true,
        _ => false,
    }
}

// Whether a log has the sign by which a transaction, which writes or doesn't, took effect. It comes soon behind the
// decision, which has this stamp, so there is looked first: a life may be long.
fn have_sign(logs: &[HostLog], hosts: u32, stamp: u64, writes: bool, tx: TxId) -> bool
    ensures { result ≡ have_mark (is_sign writes tx) hosts (logs_at logs.now) }
{
    if have_near(logs, hosts, stamp, writes, tx) {
        return true;
    }
    have_anywhere(logs, hosts, writes, tx)
}

// Whether a log has it near a stamp.
fn have_near(logs: &[HostLog], hosts: u32, stamp: u64, writes: bool, tx: TxId) -> bool
    ensures { result ≡ true → have_mark (is_sign writes tx) hosts (logs_at logs.now) ≡ true }
{
    for host in 0..hosts {
        if has_sign(near(steps_of(logs, host), stamp), writes, tx) {
            return true;
        }
    }
    false
}

// Some steps of a log from a stamp on, if they rise by stamps.
fn near(steps: &[LogStep], stamp: u64) -> &[LogStep]
    ensures { (test : Mark → Bool) → any_shows test result.now ≡ true → any_shows test steps.now ≡ true }
{
    let from = steps.partition_point(|step| step.stamp < stamp);
    let to = from.saturating_add(NEAR).min(steps.len());
    &steps[from..to]
}

fn have_anywhere(logs: &[HostLog], hosts: u32, writes: bool, tx: TxId) -> bool
    ensures { result ≡ have_mark (is_sign writes tx) hosts (logs_at logs.now) }
{
    for host in 0..hosts {
        if has_sign(steps_of(logs, host), writes, tx) {
            return true;
        }
    }
    false
}

// Whether one of these steps has it.
fn has_sign(steps: &[LogStep], writes: bool, tx: TxId) -> bool
    ensures { result ≡ any_shows (is_sign writes tx) steps.now }
{
    for step in steps {
        if is_shown(step.marks.as_slice(), writes, tx) {
            return true;
        }
    }
    false
}

// Whether one of these marks is it.
fn is_shown(marks: &[Mark], writes: bool, tx: TxId) -> bool
    ensures { result ≡ list_any (is_sign writes tx) marks.now }
{
    for mark in marks {
        if is_sign(mark, writes, tx) {
            return true;
        }
    }
    false
}

// Whether a mark is it: of a transaction that writes that it was applied on a key, of another that it was reported
// committed.
fn is_sign(mark: &Mark, writes: bool, tx: TxId) -> bool
    ensures { result ≡ is_sign writes tx mark.now }
{
    if writes {
        is_applied(mark, tx)
    } else {
        is_reported(mark, tx)
    }
}

fn is_applied(mark: &Mark, tx: TxId) -> bool
    ensures { result ≡ is_applied tx mark.now }
{
    match mark {
        Mark::Applied { tx: other, key: _ } => same_tx(*other, tx),
        _ => false,
    }
}

fn is_reported(mark: &Mark, tx: TxId) -> bool
    ensures { result ≡ is_reported tx mark.now }
{
    match mark {
        Mark::Reported {
            tx: other,
            outcome: Outcome::Committed(_),
        } => same_tx(*other, tx),
        _ => false,
    }
}
