//! A row is completed behind its commit at each replica.
ghost use Rattle.run_laws.specs.Completions.{CompletionsFollowCommits};

/// Where a completion of a row comes, no replica has a record of the transaction on the key
/// prepared; and where one has a record, the primary is marked to have applied the transaction.
#[tactic(auto, using(crate::proofs::fades::Completions::completions_follow_commits))]
pub fn completions_follow_commits()
    ensures { CompletionsFollowCommits }
{}
