//! Runs and right logs are the same thing.
ghost use Rattle.run_theory.specs.RunLaws.{RunsLeaveRightLogs, RunsAreCausal, MergedLogsRun, LogsByStampRun};
ghost use Rattle.run_theory.specs.RunLaws.{SortedLogsRun, CausalLogsRun, SchedulesRunMerged};
ghost use Rattle.run_theory.specs.RankLaws.{RankedLogsRun};

/// A run leaves right logs, and keeps to causes.
pub fn runs_leave_right_logs<E, X>()
    ensures logs { RunsLeaveRightLogs E X }
    ensures causal { RunsAreCausal E X }
{}

/// Right logs are a run: merged in order of (stamp, host), in any order by stamp, as a sort gives one, and in any order
/// that keeps to causes.
pub fn right_logs_are_a_run<E, X>()
    ensures merged { MergedLogsRun E X }
    ensures by_stamp { LogsByStampRun E X }
    ensures sorted { SortedLogsRun E X }
    ensures causal { CausalLogsRun E X }
{}

/// A schedule in any order leaves logs whose merged order is a run.
pub fn schedules_run_in_merged_order<E, X>()
    ensures { SchedulesRunMerged E X }
{}

/// Right logs are a run in the order of any rank that falls neither along a log nor along a signal; steps of one rank
/// stand in order of (stamp, host).
pub fn ranked_logs_are_a_run<E, X>()
    ensures { RankedLogsRun E X }
{}
