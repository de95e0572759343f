//! A closing of an epoch, from its request to the moment at which nothing is under way any more.
ghost use Rattle.peace_laws.specs.Closing.{ClosingsEnd};

/// Once nothing of a closing that was asked for is under way, the client was told of its end, once, and
/// all members and the president's master rest in the epoch that follows.
pub fn closings_end()
    ensures { ClosingsEnd }
{}
