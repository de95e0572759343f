//! Where signals along chains go, and what a transaction has of its keys.
ghost use Rattle.frag_map.specs.Laws.{ReplicasAreApart};
ghost use Rattle.run_laws.specs.Keyed.{TransactionsAreKeyed};
ghost use Rattle.run_laws.specs.Routes.{ComingAreRouted, CommitsEndAtPrimary, ReplicasAreNodes, RequestsAreForReplicas};
ghost use Rattle.run_laws.specs.Routes.{SignalsAreForBlocks, SignalsAreRouted};

/// The replicas of a key are nodes of the group that has the key, each of them once.
pub fn replicas_are_nodes()
    ensures apart { ReplicasAreApart }
    ensures nodes { ReplicasAreNodes }
{}

/// What is in transit along the replicas of a key is sent to the node of its place: an operation to
/// the first place, an image to a later one; and a commit or a completion to a place of them, or a
/// commit to the primary alone. So is what waits at a node. All that asks a replica for something is
/// for the rows of its node, and what answers that for the coordinator of the transaction.
pub fn signals_are_routed()
    ensures routed { SignalsAreRouted }
    ensures blocks { SignalsAreForBlocks }
{}

/// What comes to a host is routed so: a request to the primary is for an operation, and one to
/// another replica for an image; and a commit is at the first place of its chain just where it comes
/// to the primary.
pub fn coming_signals_are_routed()
    ensures routed { ComingAreRouted }
    ensures requests { RequestsAreForReplicas }
    ensures commits { CommitsEndAtPrimary }
{}

/// Of each transaction of a coordinator no two of the keys that it has touched are the same, each of
/// its operations is on one of them, and a key counts as written just where an operation on it was
/// answered by `Done`.
#[tactic(auto, using(crate::proofs::hosts::Keyed::transactions_are_keyed))]
pub fn transactions_are_keyed()
    ensures { TransactionsAreKeyed }
{}
