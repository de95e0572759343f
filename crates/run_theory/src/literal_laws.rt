//! The machine with channels in its state, beside the one that is told by logs.
ghost use Rattle.run_theory.specs.LiteralLaws.{ChannelsAdmitRuns};

/// Both admit the same events, and so the same logs.
pub fn channels_admit_runs<E, X>()
    ensures { ChannelsAdmitRuns E X }
{}
