//! Which way transactions go at their coordinators.
ghost use Rattle.request_laws.specs.OneWay.{TransactionsGoOneWay};

/// Along each log of its coordinator's host a transaction is committed or given up, and not both; and a
/// coordinator forgets none that is neither.
#[tactic(auto, using(crate::proofs::phases::OneWay::transactions_go_one_way))]
pub fn transactions_go_one_way()
    ensures { TransactionsGoOneWay }
{}
