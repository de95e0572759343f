//! Views that are chosen by promises, confirmations and grants, whatever these are of.
ghost use Rattle.view_laws.specs.Chain.{OneViewForEachNumber, ViewsAreAChain};

/// Two views of one number that are both chosen are the same.
pub fn one_view_for_each_number()
    ensures { OneViewForEachNumber }
{}

/// Of two chosen views with none between them the later one is a part of the earlier one, or of that
/// with one member joined, or with one made full.
pub fn views_are_a_chain()
    ensures { ViewsAreAChain }
{}
