//! What the API may say.
ghost use Rattle.api_block.specs.Words.{ApiKeepsToItsWords};

/// It sends only requests of transactions, rounds of time, acknowledgements and requests for rows,
/// and marks only reports.
#[tactic(auto, using(crate::proofs::Walk::api_words))]
pub fn keeps_to_its_words()
    ensures { ApiKeepsToItsWords }
{}
