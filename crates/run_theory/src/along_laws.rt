//! Induction along runs.
ghost use Rattle.run_theory.specs.AlongLaws.{RunsKeep, RunsKeepWithSignals, LogsKeepWithSignals, CutsKeepWithSignals};
ghost use Rattle.run_theory.specs.AlongLaws.{LogsAreAsRuns, CutsAreAsRuns};

/// What holds at the start and is kept by each event holds after every run.
pub fn along_run<E, X>()
    ensures { RunsKeep E X }
{}

/// The same of logs, together with what each signal on its way tells of them.
pub fn along_signals<E, X>()
    ensures runs { RunsKeepWithSignals E X }
    ensures logs { LogsKeepWithSignals E X }
    ensures cuts { CutsKeepWithSignals E X }
{}

/// What holds of the logs of every run holds of all right logs, and of every closed cut of them.
pub fn of_runs<E, X>()
    ensures logs { LogsAreAsRuns E X }
    ensures cuts { CutsAreAsRuns E X }
{}
