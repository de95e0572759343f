//! Who knows of a commit, and how long it is remembered.
ghost use Rattle.commit_laws.specs.Forth.{ForthIsKnownAlways};
ghost use Rattle.commit_laws.specs.Markers.{CommitsAreRemembered, TracesStay};

/// At each moment of a run in the order of views: whoever tells or has of a transaction that it is
/// committed, a signal, rows, a takeover or the client's side, does so of one that its coordinator has
/// committed.
#[tactic(auto, using(crate::proofs::forth::All::forth_is_known))]
pub fn known_commits_went_forth()
    ensures { ForthIsKnownAlways }
{}

/// At each moment rows have a marker beside each committed record, unless the client's side has told that it
/// knows of the commit; and so a trace that rows have of a commit stays until then.
#[tactic(auto, using(crate::proofs::markers::All::commits_are_remembered, crate::proofs::markers::All::traces_stay))]
pub fn commits_are_remembered()
    ensures marked { CommitsAreRemembered }
    ensures stay { TracesStay }
{}
