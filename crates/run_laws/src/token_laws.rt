//! The operations of a transaction are under way one at a time, and none of one that is decided.
ghost use Rattle.run_laws.specs.Beside.{ComersAreUndecided, NoneWaitBeside, NoneWaitWhereCarriedOut};
ghost use Rattle.run_laws.specs.Owed.{WaitersAreUndecided};
ghost use Rattle.run_laws.specs.Tokens.{OneAtATime};
ghost use Rattle.run_laws.specs.Undecided.{CarriedOutHaveNone, DecidedHaveNone};

/// After every run, of what asks a replica for a part of one operation of a transaction, or answers
/// it, no more is in transit or waits for a lock than there may be: one where its coordinator has an
/// operation unanswered, or aborts it or has aborted it, and else none.
#[tactic(auto, using(crate::proofs::tokens::OneAtATime::one_at_a_time))]
pub fn operations_come_one_at_a_time()
    ensures { OneAtATime }
{}

/// Of a transaction that is decided, and isn't given up, no part of an operation is in transit or
/// waits; nor of one that its coordinator carries out.
pub fn decided_ask_nothing()
    ensures decided { DecidedHaveNone }
    ensures carried { CarriedOutHaveNone }
{}

/// No transaction with a request that waits at a replica is decided, unless it is given up; nor is one of
/// which a part of an operation comes to a host.
pub fn who_asks_is_undecided()
    ensures waiting { WaitersAreUndecided }
    ensures coming { ComersAreUndecided }
{}

/// No request of a transaction waits at a replica where another part of an operation of it comes to a
/// host, nor where its coordinator carries it out.
pub fn requests_stand_alone()
    ensures beside { NoneWaitBeside }
    ensures carried { NoneWaitWhereCarriedOut }
{}
