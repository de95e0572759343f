//! A life in which nothing stops or cuts anybody off.
ghost use Rattle.peace_laws.specs.Laws.{ClosingsAreAnswered, PeacefulLivesArePlain};

/// The plain parts of logs that came about in peace are logs of the plain machine: those of the hosts that
/// aren't main parts, without closings, and with all epochs made one. Its shell was asked for the same, when
/// nothing was under way, and replied the same but for views, ends of closings, and epochs.
#[tactic(auto, using(crate::proofs::lives::Peaceful::lives_plain))]
pub fn peaceful_lives_are_plain()
    ensures { PeacefulLivesArePlain }
{}

/// Once nothing is under way behind a request for a closing, the client was told that an epoch is closed, or
/// durable, and nothing else; and that isn't below the epoch of any transaction that was reported before.
#[tactic(auto, using(crate::proofs::lives::Peaceful::closings_answered))]
pub fn closings_are_answered()
    ensures { ClosingsAreAnswered }
{}
