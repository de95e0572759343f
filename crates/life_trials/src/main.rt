//! Random lives of clusters, and the laws that they and the restarts between them are judged by. Four words say what is
//! run, and more such fours behind them: a kind, the first seed, how many runs, and at how many of a hundred requests
//! failures begin. A run is made of its seed alone, so one that breaks a law can be had again. Where the first word is
//! `traces`, lives as traces are tried before; where the last is `worked`, runs that a text on standard input names are
//! made behind them. In front of all may stand `link COUNT`, `queue COUNT` or `both COUNT`: so many signals pass between
//! two threads, through a link, through the queue of a link without its rule, or through two links, one each way.
//!
//! | kind | what a run is |
//! |---|---|
//! | `alone` | one life, on disks that never fail; at its end the nodes tell their rows |
//! | `disks` | five lives on the same disks, some of whose calls fail, with restarts between and cuts of power |
//! | `fuses` | two brief lives and a restart behind each, again and again, each time with another call that fails |
//! | `table` | a life of one transaction, in which nodes stop or are cut off: its number says which, and when |
//!
//! Of the table the numbers are that of the first run, how many runs there are at most, and how far it is from one to
//! the next.
//!
//! Printed are what a run on disks came to, the law that a run breaks, and behind all runs of four words what they did.
//! The status is 1 where a law is broken, a trace isn't what it should be, or a signal is lost or out of order, and 2
//! where the words or the lines of the text aren't such.
#![tactic(auto)]

mod alone;
mod begin;
mod chance;
mod client;
mod cluster;
mod disks;
mod fault;
mod fuses;
mod life;
mod links;
mod lives;
mod moments;
mod rows;
mod shapes;
mod stopped;
mod table;
mod tally;
mod told;
mod traced;
mod traces;
mod trial;
mod words;
mod worked;

use fault::RunFault;
use links::{Passage, split_passage, try_passage};
use sig_core::Key;
use std::alloc::Global;
use std::env;
use std::process::ExitCode;
use std::sync::Wait;
use std::thread::Threads;
use stopped::Stopped;
use tally::Tally;
use told::Told;
use trial_requests::all_keys;
use words::{Kind, Runs, all_runs};

const USAGE: &str =
    "usage: life_trials [link|queue|both COUNT] [traces] [alone|disks|fuses SEED COUNT FAILS|table FIRST COUNT STEP].. \
[worked]";

fn words_of(rt: &HostRuntime) -> Result<Vec<String>, Stopped> {
    let mut words = Vec::new(rt.alloc());
    for word in env::args(rt)?.skip(1) {
        words.push(word)?;
    }
    Ok(words)
}

fn run_one<W: Wait>(
    rt: &HostRuntime,
    wait: &W,
    runs: &Runs,
    seed: u64,
    events: u64,
    tally: &mut Tally,
) -> Result<Told, RunFault> {
    let keys = all_keys(rt.alloc())?;
    run_kind(rt, wait, runs, seed, events, keys.as_slice(), tally)
}

fn run_kind<W: Wait>(
    rt: &HostRuntime,
    wait: &W,
    runs: &Runs,
    seed: u64,
    events: u64,
    keys: &[Key],
    tally: &mut Tally,
) -> Result<Told, RunFault> {
    match runs.kind {
        Kind::Alone => alone::run_one(wait, rt.alloc(), seed, runs.fails, keys, tally),
        Kind::Disks => lives::run_one(wait, rt.alloc(), seed, runs.fails, keys, tally),
        Kind::Fuses => fuses::run_one(wait, rt.alloc(), seed, runs.fails, keys, tally),
        Kind::Table => table::run_one(wait, rt.alloc(), seed, events, keys, tally),
    }
}

// How many signals are taken in the life of the table in which nothing fails.
fn events_of<W: Wait>(rt: &HostRuntime, wait: &W, runs: &Runs) -> Result<u64, RunFault> {
    match runs.kind {
        Kind::Table => table::events(wait, rt.alloc()),
        _ => Ok(0),
    }
}

// Does these runs, and says whether no law was broken.
fn run_all<W: Wait>(rt: &HostRuntime, wait: &W, runs: &Runs) -> Result<bool, Stopped> {
    let mut tally = Tally::new();
    match events_of(rt, wait, runs) {
        Ok(events) => run_each(rt, wait, runs, events, &mut tally)?,
        Err(fault) => tell_fault(rt, runs.first, fault, &mut tally)?,
    }
    tally.tell(rt, runs)?;
    Ok(tally.is_faultless())
}

fn run_each<W: Wait>(
    rt: &HostRuntime,
    wait: &W,
    runs: &Runs,
    events: u64,
    tally: &mut Tally,
) -> Result<(), Stopped> {
    for at in 0..runs.count {
        let seed = runs.seed(at);
        match run_one(rt, wait, runs, seed, events, tally) {
            Ok(told) => told.tell(rt, seed)?,
            Err(fault) => tell_fault(rt, seed, fault, tally)?,
        }
    }
    Ok(())
}

fn tell_fault(
    rt: &HostRuntime,
    seed: u64,
    fault: RunFault,
    tally: &mut Tally,
) -> Result<(), Stopped> {
    tally.add_fault();
    println!(rt; "run {seed}: {}", fault.name())?;
    Ok(())
}

// Whether traces are tried, and the words behind.
fn split_traces(words: &[String]) -> (bool, &[String]) {
    match words.split_first() {
        Some((first, behind)) if first.as_str() == "traces" => (true, behind),
        _ => (false, words),
    }
}

// Whether worked runs are made, and the words before.
fn split_worked(words: &[String]) -> (bool, &[String]) {
    match words.split_last() {
        Some((last, before)) if last.as_str() == "worked" => (true, before),
        _ => (false, words),
    }
}

// Tries what the words ask for but worked runs. Says whether all came out.
fn try_lives<W: Wait>(
    rt: &HostRuntime,
    wait: &W,
    has_traces: bool,
    all: &[Runs],
) -> Result<bool, Stopped> {
    let mut faultless = true;
    if has_traces {
        faultless = traces::try_all(rt, wait)?;
    }
    for runs in all {
        faultless &= run_all(rt, wait, runs)?;
    }
    Ok(faultless)
}

// Passes signals where that is asked for, and says whether they came.
fn try_links<R: Threads + Wait + Sync>(
    rt: &HostRuntime,
    handles: &R,
    passage: Option<Passage>,
) -> Result<bool, Stopped> {
    match passage {
        Some(passage) => try_passage(rt, handles, passage),
        None => Ok(true),
    }
}

// Makes worked runs where they are asked for, and gives the status.
fn try_worked<W: Wait>(rt: &HostRuntime, wait: &W, has_worked: bool) -> Result<u8, Stopped> {
    if has_worked {
        worked::try_all(rt, wait)
    } else {
        Ok(0)
    }
}

// The runs that words ask for, behind those that were taken of all the words; none where a word isn't such, or there
// is none at all.
fn runs_of(alloc: Global, all: &[String], fours: &[String]) -> Result<Option<Vec<Runs>>, Stopped> {
    if all.is_empty() {
        return Ok(None);
    }
    Ok(all_runs(alloc, fours)?)
}

fn main(rt: HostRuntime) -> Result<ExitCode, Stopped> {
    let words = words_of(&rt)?;
    let (passage, behind) = split_passage(words.as_slice());
    let (has_traces, behind) = split_traces(behind);
    let (has_worked, fours) = split_worked(behind);
    let Some(all) = runs_of(rt.alloc(), words.as_slice(), fours)? else {
        println!(rt; "{USAGE}")?;
        return Ok(ExitCode::from(2));
    };
    let came = try_links(&rt, &rt, passage)?;
    let faultless = try_lives(&rt, &rt, has_traces, all.as_slice())? && came;
    let status = try_worked(&rt, &rt, has_worked)?;
    Ok(ExitCode::from(if faultless { status } else { 1 }))
}
