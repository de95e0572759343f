//! What runs did, in numbers.

use crate::stopped::Stopped;
use crate::words::Runs;
use sig_core::{Life, Mark, Outcome};

/// What runs did, in numbers, each of which stays at 2^64 - 1.
#[derive(Clone, Copy)]
pub struct Tally {
    lives: u64,
    restarts: u64,
    /// How often a life didn't begin, since a call of a disk failed.
    failed_starts: u64,
    /// How many hosts stopped.
    stops: u64,
    commits: u64,
    aborts: u64,
    faults: u64,
}

impl Tally {
    /// Nothing was done.
    pub fn new() -> Tally {
        Tally {
            lives: 0,
            restarts: 0,
            failed_starts: 0,
            stops: 0,
            commits: 0,
            aborts: 0,
            faults: 0,
        }
    }

    /// A life began behind another one.
    pub fn add_restart(&mut self) {
        self.restarts = self.restarts.saturating_add(1);
    }

    /// A life didn't begin, since a call of a disk failed.
    pub fn add_failed_start(&mut self) {
        self.failed_starts = self.failed_starts.saturating_add(1);
    }

    /// A life has ended.
    pub fn add_life(&mut self, life: &Life) {
        self.lives = self.lives.saturating_add(1);
        for log in life.logs.as_slice() {
            for step in log.steps.as_slice() {
                for mark in step.marks.as_slice() {
                    self.add_mark(mark);
                }
            }
        }
    }

    fn add_mark(&mut self, mark: &Mark) {
        match mark {
            Mark::Stopped { cause: _ } => self.stops = self.stops.saturating_add(1),
            Mark::Reported { tx: _, outcome } => self.add_outcome(outcome),
            _ => {}
        }
    }

    fn add_outcome(&mut self, outcome: &Outcome) {
        match outcome {
            Outcome::Committed(_) => self.commits = self.commits.saturating_add(1),
            Outcome::Aborted(_) => self.aborts = self.aborts.saturating_add(1),
            Outcome::Unknown => {}
        }
    }

    /// A run is at fault.
    pub fn add_fault(&mut self) {
        self.faults = self.faults.saturating_add(1);
    }

    /// Whether no run is at fault.
    pub fn is_faultless(&self) -> bool {
        self.faults == 0
    }

    /// Prints it, behind the words of the runs.
    ///
    /// # Errors
    /// As of a write, or want of memory.
    pub fn tell(&self, rt: &HostRuntime, runs: &Runs) -> Result<(), Stopped> {
        let Tally {
            lives,
            restarts,
            failed_starts,
            stops,
            commits,
            aborts,
            faults,
        } = self;
        print!(rt;
            "{} {} {} {}: ",
            runs.kind.name(),
            runs.first,
            runs.count,
            runs.fails
        )?;
        print!(rt;
            "{lives} lives, {restarts} restarts, {failed_starts} failed starts, {stops} stops, "
        )?;
        println!(rt; "{commits} commits, {aborts} aborts, {faults} faults")?;
        Ok(())
    }
}
