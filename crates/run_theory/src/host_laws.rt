//! What running hosts promise, each of its own log and its own links.
ghost use Rattle.run_theory.specs.HostLaws.{HostsKeepRightLogs, HostsRun, RightLogsAreKept, SendsBehind, TakesBehind};
ghost use Rattle.run_theory.specs.HostLaws.{LengthsCutLogs};
ghost use Rattle.run_theory.specs.PairLaws.{PairsFlow, PairsKeepRightLogs, LengthsTellQuiet, LengthsOfLinksTellQuiet};
ghost use Rattle.run_theory.specs.PairLaws.{LengthsOfEndsTellQuiet};

/// What running hosts and links keep are right logs, and so a run; and it promises no more.
pub fn logs_of_hosts<E, X>()
    ensures logs { HostsKeepRightLogs E X }
    ensures run { HostsRun E X }
    ensures exact { RightLogsAreKept E X }
{}

/// What one more step adds to what was sent and what was taken, in the order of time.
pub fn steps_add_behind<E, X>()
    ensures sends { SendsBehind E X }
    ensures takes { TakesBehind E X }
{}

/// A length for each host's list is a cut.
pub fn lengths_cut_logs<E>()
    ensures { LengthsCutLogs E }
{}

/// What hosts keep that run side by side, each of its own log and its own ends of links, are right logs where each two
/// of them have compared their ends.
pub fn pairs_of_hosts<E, X>()
    ensures pair { PairsFlow E X }
    ensures logs { PairsKeepRightLogs E X }
{}

/// Where as many signals were taken from a running host as it sent, those that it sent were taken.
pub fn equal_lengths_are_quiet<E, X>()
    ensures logs { LengthsTellQuiet E X }
    ensures links { LengthsOfLinksTellQuiet E X }
    ensures ends { LengthsOfEndsTellQuiet E X }
{}
