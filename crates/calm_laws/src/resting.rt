//! Memberships at rest, and what plain hosts send to one another.
ghost use Rattle.calm_laws.specs.Resting.{LivesBeginAtRest, PlainSendsAreCalm};

/// What a host of the plain machine sends in a step is taken in calm by whoever is to take it.
#[tactic(auto, using(crate::proofs::places::PlainSends::plain_sends_calm))]
pub fn plain_sends_are_calm()
    ensures { PlainSendsAreCalm }
{}

/// A life begins with all memberships at rest.
#[tactic(auto, using(crate::proofs::plain_steps::Rest::lives_begin_at_rest))]
pub fn lives_begin_at_rest()
    ensures { LivesBeginAtRest }
{}
