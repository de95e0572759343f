//! What a transaction has of a key is what the replicas made of it.
ghost use Rattle.run_laws.specs.Circle.{VerifiedAreSettled};

/// A transaction that waits for its epoch, and isn't given up, has no operation unanswered; and of
/// each key it has what the key's primary answered, each replica has the primary's image prepared,
/// or none where no answer was `Done`, and no other host has one.
pub fn verified_are_settled()
    ensures { VerifiedAreSettled }
{}
