//! What is true of each step of the rows of a node and their saver.
ghost use Rattle.lqh_saver.specs.Laws.{StepsAreOfRows};
ghost use Rattle.lqh_saver.specs.Words.{SaverKeepsToItsWords};

/// A law, which does nothing: a step leaves the rows as they are, or is the rows' own, or the journal alone
/// gives up redo.
#[tactic(auto, using(crate::proofs::Walk::saver_cases))]
pub fn steps_are_of_rows()
    ensures { StepsAreOfRows }
{}

/// A law, which does nothing: whatever they take, and whatever view is installed, they send and mark nothing
/// but their own words and marks.
#[tactic(auto, using(crate::proofs::Walk::saver_words))]
pub fn keeps_to_its_words()
    ensures { SaverKeepsToItsWords }
{}
