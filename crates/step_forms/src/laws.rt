//! Portions of lists of signals.
ghost use Rattle.step_forms.specs.Portions.{PortionsAreOfTheirLists};

/// What passes a test of each signal of a list, and of that by which a block goes on with the
/// list, passes it of each that an event sends of the list.
#[tactic(auto, using(crate::proofs::PortionLemmas::portions_law))]
pub fn portions_are_of_their_lists()
    ensures { PortionsAreOfTheirLists }
{}
