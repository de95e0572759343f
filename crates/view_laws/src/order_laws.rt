//! Right logs in the order of views.
ghost use Rattle.view_laws.specs.Order.{ActorsHaveTheGreatestView, EntriesStandInOrder, RightLogsRunInViews};

/// Right logs are a run in the order of (view, stamp, host), where the view of an event is the
/// greatest that its host has stood in, or stopped by.
pub fn right_logs_run_in_views()
    ensures { RightLogsRunInViews }
{}

/// In that order no host has stood in a greater view than that of an event up to it, and its host
/// stands in it behind it, or stops.
#[tactic(auto, using(crate::proofs::eras::Order::act_in_greatest))]
pub fn actors_have_the_greatest_view()
    ensures { ActorsHaveTheGreatestView }
{}

/// The entries of right logs are the decisions, in that order.
#[tactic(auto, using(crate::proofs::eras::Entries::stand_in_order))]
pub fn entries_stand_in_order()
    ensures { EntriesStandInOrder }
{}
