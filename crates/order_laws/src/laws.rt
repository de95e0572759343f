//! Whom a transaction waits for at a replica behind the primary.
ghost use Rattle.order_laws.specs.Aborting.{GivenUpHoldersWait};
ghost use Rattle.order_laws.specs.Awaited.{AllIsAwaited};
ghost use Rattle.order_laws.specs.Carried.{CarriedOutStayOut};
ghost use Rattle.order_laws.specs.Completing.{CompletedLetGo};
ghost use Rattle.order_laws.specs.First.{GivenUpAreOutAtFirst};
ghost use Rattle.order_laws.specs.Gone.{WhoHasGoneIsOut};
ghost use Rattle.order_laws.specs.LetGo.{HoldersAreEnding, HoldersHaveLetGo, LaterHoldersAreGivenUp, WhoLetsGoIsOver};
ghost use Rattle.order_laws.specs.Records.{HoldersHaveRecords, WhoCommitsHasWritten};
ghost use Rattle.order_laws.specs.Standing.{WhoIsAwayIsOut};
ghost use Rattle.order_laws.specs.Unanswered.{PartsAreUnanswered};
ghost use Rattle.order_laws.specs.Writers.{HoldersBehindDontWait};

/// After every run: whom a transaction waits for at a place of a key's chain behind the first has let
/// go of the key at the place in front, by an abort, by a completion, or by its commit at the primary.
#[tactic(auto, using(crate::proofs::LetGo::holders_have_let_go))]
pub fn holders_have_let_go()
    ensures { HoldersHaveLetGo }
{}

/// So where its coordinator hasn't forgotten it, it is decided there or being aborted: nobody waits at
/// a backup for a transaction that takes operations or waits for its epoch.
#[tactic(auto, using(crate::proofs::Ending::holders_are_ending))]
pub fn holders_are_ending()
    ensures { HoldersAreEnding }
{}

/// Who has let go of a key at a host is given up or carried out by its coordinator.
#[tactic(auto, using(crate::proofs::Over::who_lets_go_is_over))]
pub fn who_lets_go_is_over()
    ensures { WhoLetsGoIsOver }
{}

/// Who has let go of a key at a host, and hasn't asked for it there since, neither holds its lock nor
/// waits for it: no request of another, no serving of the queue and no round brings it back.
pub fn who_has_gone_is_out()
    ensures { WhoHasGoneIsOut }
{}

/// A transaction that is carried out neither holds nor waits for a lock that it has let go of.
pub fn carried_out_stay_out()
    ensures { CarriedOutStayOut }
{}

/// Whom a transaction waits for at a place of a key's chain behind the second is given up by its
/// coordinator: a row is completed at each place behind the place after it.
#[tactic(auto, using(crate::proofs::Later::later_holders_are_given_up))]
pub fn later_holders_are_given_up()
    ensures { LaterHoldersAreGivenUp }
{}

/// Who holds a key's lock at a place of its chain behind the first has a record of the key at the
/// place in front, or has let go of the key there: a backup locks nothing that isn't stored before it.
#[tactic(auto, using(crate::proofs::Records::holders_have_records))]
pub fn holders_have_records()
    ensures { HoldersHaveRecords }
{}

/// A transaction whose commit was asked for, and that isn't given up, has written each key whose lock
/// it holds at a backup.
pub fn who_commits_has_written()
    ensures { WhoCommitsHasWritten }
{}

/// A coordinator awaits all that is under way by which rows of a transaction are committed, completed
/// or aborted: where it has forgotten the transaction nothing is.
#[tactic(auto, using(crate::proofs::Awaited::all_is_awaited))]
pub fn all_is_awaited()
    ensures { AllIsAwaited }
{}

/// Where nothing is under way, a transaction that is carried out and isn't committed any more holds no
/// lock at the second place of a chain.
#[tactic(auto, using(crate::proofs::Completing::completed_let_go))]
pub fn completed_let_go()
    ensures { CompletedLetGo }
{}

/// What is under way of operations is of those that coordinators have unanswered, on their keys.
#[tactic(auto, using(crate::proofs::Unanswered::parts_are_unanswered))]
pub fn parts_are_unanswered()
    ensures { PartsAreUnanswered }
{}

/// Who never asked for a key at a place of its chain, or has let go of it there since, neither holds its
/// lock nor waits for it.
pub fn who_is_away_is_out()
    ensures { WhoIsAwayIsOut }
{}

/// Where nothing is under way, a transaction that is given up and holds the lock at a place of a chain
/// waits itself for that place or one behind it.
#[tactic(auto, using(crate::proofs::Aborting::given_up_holders_wait))]
pub fn given_up_holders_wait()
    ensures { GivenUpHoldersWait }
{}

/// Where nothing is under way, a transaction that is given up neither holds the lock of a key at its
/// primary nor waits for it.
pub fn given_up_are_out_at_first()
    ensures { GivenUpAreOutAtFirst }
{}

/// Who holds the lock of a key at a place of its chain behind the first doesn't wait for it there.
#[tactic(auto, using(crate::proofs::Writers::holders_behind_dont_wait))]
pub fn holders_behind_dont_wait()
    ensures { HoldersBehindDontWait }
{}
