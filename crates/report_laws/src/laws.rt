//! Histories grow.
ghost use Rattle.report_laws.specs.Growing.{HistoriesGrow};

/// Of two cuts, one within the other, the history of the smaller one is that of the larger
/// one with some entries left out: none of its entries is lost, and none changes its place among
/// them.
#[tactic(auto, using(crate::proofs::Growing::histories_grow))]
pub fn histories_grow()
    ensures { HistoriesGrow }
{}
