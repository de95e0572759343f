//! What a membership has heard when it asks and settles, and what it answers to.
ghost use Rattle.view_laws.specs.Heard.{MembershipsAnswerRightly, MembershipsAskRightly};

/// A membership asks the arbitrator for a set with a number, and settles on one, only where all
/// members of its proposal have confirmed it.
pub fn memberships_ask_rightly()
    ensures { MembershipsAskRightly }
{}

/// It confirms a promise to the node that asked for it, and asks the members of what it proposes.
#[tactic(auto, using(crate::proofs::memberships::Answers::answer_rightly))]
pub fn memberships_answer_rightly()
    ensures { MembershipsAnswerRightly }
{}
