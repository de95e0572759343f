//! What is true of all that the copying sends, whatever signals come, in whatever order.
ghost use Rattle.copy_block.specs.Words.{CopyKeepsToItsWords};

/// Whatever the copying takes, and whatever view is installed, it sends nothing but its own words,
/// and marks nothing.
#[tactic(auto, using(crate::proofs::Walk::copy_words))]
pub fn keeps_to_its_words()
    ensures { CopyKeepsToItsWords }
{}
