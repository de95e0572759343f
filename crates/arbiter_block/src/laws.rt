//! What is true of all that the arbitrator grants, whatever signals come, in whatever order.
ghost use Rattle.arbiter_block.specs.Laws.{AskedAgainIsAnsweredAlike, EachSetLiesInTheOneBefore, LastGrantIsKept};
ghost use Rattle.arbiter_block.specs.Laws.{OneSetForEachNumber, ZeroIsNeverGranted};
ghost use Rattle.arbiter_block.specs.Words.{ArbiterKeepsToItsWords};

/// No number is granted with two sets. The first view counts as granted.
#[tactic(auto, using(crate::proofs::LawLemmas::one_set))]
pub fn one_set_for_each_number()
    ensures { OneSetForEachNumber }
{}

/// Each granted set lies in the one that was granted before, but for the member that joins, and
/// the numbers never fall.
#[tactic(auto, using(crate::proofs::LawLemmas::each_set_lies))]
pub fn each_set_lies_in_the_one_before()
    ensures { EachSetLiesInTheOneBefore }
{}

/// The number 0 is never granted.
#[tactic(auto, using(crate::proofs::LawLemmas::zero_is_never))]
pub fn zero_is_never_granted()
    ensures { ZeroIsNeverGranted }
{}

/// What the arbitrator keeps, and names when it refuses, is what it granted last.
#[tactic(auto, using(crate::proofs::LawLemmas::last_is_kept))]
pub fn last_grant_is_kept()
    ensures { LastGrantIsKept }
{}

/// A request that comes once more at once gets the same answer, and changes nothing more.
#[tactic(auto, using(crate::proofs::LawLemmas::again_alike))]
pub fn asked_again_is_answered_alike()
    ensures { AskedAgainIsAnsweredAlike }
{}

/// Whatever comes, the arbitrator sends only grants and refusals, and marks nothing.
#[tactic(auto, using(crate::proofs::Walk::arbiter_words))]
pub fn keeps_to_its_words()
    ensures { ArbiterKeepsToItsWords }
{}
