//! What is true of confirmations, requests and words, in any state of a master.
ghost use Rattle.gcp_master.specs.Laws.{OutsidersConfirmNothing, RequestsAreKept, TwiceConfirmedCountsOnce};
ghost use Rattle.gcp_master.specs.Words.{MasterKeepsToItsWords};

/// A confirmation of who isn't in the view changes nothing, sends nothing and marks nothing.
#[tactic(auto, using(crate::proofs::ConfirmLemmas::outsiders_confirm_nothing))]
pub fn outsiders_confirm_nothing()
    ensures { OutsidersConfirmNothing }
{}

/// A confirmation that comes once more at once changes nothing, sends nothing and marks nothing.
#[tactic(auto, using(crate::proofs::TwiceLemmas::twice_confirmed_counts_once))]
pub fn twice_confirmed_counts_once()
    ensures { TwiceConfirmedCountsOnce }
{}

/// What the client asked for is still asked for after a signal, unless a closing that serves it
/// begins.
#[tactic(auto, using(crate::proofs::RequestLemmas::requests_are_kept))]
pub fn requests_are_kept()
    ensures { RequestsAreKept }
{}

/// Whatever signals come, the master sends its words alone, and marks that epochs are closed or
/// durable, or that it stops.
#[tactic(auto, using(crate::proofs::Walk::master_words))]
pub fn keeps_to_its_words()
    ensures { MasterKeepsToItsWords }
{}
