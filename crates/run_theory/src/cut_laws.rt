//! Closed cuts of right logs.
ghost use Rattle.run_theory.specs.CutLaws.{CutsAreClosedWhereRight, LogsAreClosed, ClosedCutsRun, ClosedCutsGrow};
ghost use Rattle.run_theory.specs.CutLaws.{ClosedCutsKeep};

/// A cut of right logs is closed exactly where it is right logs itself, and so a run.
pub fn closed_cuts_are_right_logs<E, X>()
    ensures where_right { CutsAreClosedWhereRight E X }
    ensures whole { LogsAreClosed E X }
    ensures run { ClosedCutsRun E X }
{}

/// Of two closed cuts, one inside the other, the larger is the smaller plus further events.
pub fn closed_cuts_grow<E, X>()
    ensures grow { ClosedCutsGrow E X }
    ensures keep { ClosedCutsKeep E X }
{}
