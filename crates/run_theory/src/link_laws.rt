//! The laws of logs and links in words of their own.
ghost use Rattle.run_theory.specs.LinkLaws.{FirstInFirstOut, NothingFollowsStop, ClosingIsLast, StampsRise};
ghost use Rattle.run_theory.specs.LinkLaws.{HostsAreMadeFirst, TakenAtMostOnce, LinksProject};

/// The k-th signal that was taken from a link is the k-th that was sent, until the closing.
pub fn first_in_first_out<E, X>()
    ensures { FirstInFirstOut E X }
{}

/// Nothing follows a step that stops.
pub fn nothing_follows_stop<E, X>()
    ensures { NothingFollowsStop E X }
{}

/// After the closing of a link nothing more is taken from it.
pub fn closing_is_last<E, X>()
    ensures { ClosingIsLast E X }
{}

/// A step has a greater stamp than the step that sent its signal.
pub fn stamps_rise<E, X>()
    ensures { StampsRise E X }
{}

/// A host that was made later makes its steps after the step that made it.
pub fn hosts_are_made_first<E, X>()
    ensures { HostsAreMadeFirst E X }
{}

/// A signal is taken at most once.
pub fn taken_at_most_once<E, X>()
    ensures { TakenAtMostOnce E X }
{}

/// What one reads off the signals taken from a link is an older part of what one reads off those sent.
pub fn links_project<E, X, Y>()
    ensures { LinksProject E X Y }
{}
