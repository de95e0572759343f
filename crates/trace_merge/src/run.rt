//! Runs: the steps of all logs in one order.
ghost use Rattle.std.specs.Prelude.{◌≡◌, length};

use sig_core::HostId;
use std::marker::Model;

/// A step of a life, by its place in the logs.
#[derive(Clone, Copy, Debug, PartialEq, Eq)]
pub struct RunStep {
    /// The host that made it.
    pub host: HostId,
    /// Its number in the log of that host, from 0.
    pub step: usize,
}

/// The steps of all hosts of a life in the order of their stamps, and where stamps are the same in
/// that of the hosts.
#[derive(Drop)]
pub struct Run {
    steps: Vec<RunStep>,
}

impl Model for Run {
    ghost use Rattle.std.specs.Prelude.{List};
    ghost use Rattle.trace_merge.specs.declared.run.RunStep.{RunStep};

    ghost Value = { List RunStep };

    ghost view = { λ r. r.steps.items };
}

impl Run {
    // A run of these steps.
    pub(crate) fn of(steps: Vec<RunStep>) -> Run
        ensures { result ≡ steps.items }
    {
        Run { steps }
    }

    /// The steps, in the order in which they were made.
    pub fn as_slice(&self) -> &[RunStep]
        ensures { result.now ≡ self.now }
    {
        self.steps.as_slice()
    }

    /// How many steps there are.
    pub fn len(&self) -> usize
        ensures { result ≡ length self.now }
    {
        self.steps.len()
    }
}
