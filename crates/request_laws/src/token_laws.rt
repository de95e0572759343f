//! The operations of a transaction, one at a time in each view.
ghost use Rattle.request_laws.specs.Tokens.{OneAtATime, QuietUnlessAsked, TakenIsAlone, TakesAreFew, WaitingIsAlone};

/// At each moment, of the current view: what was sent of a transaction's requests to rows and of their
/// answers, with the requests that wait there, is no more than what was taken, and one if its last operation
/// was asked for in the view and is unanswered, or it is given up. No more of them is taken than was sent.
pub fn one_at_a_time()
    ensures few { OneAtATime }
    ensures taken { TakesAreFew }
{}

/// So where one of these signals is taken, or a request waits, it is the only one of its transaction; and
/// there is none where nothing was asked for in the view, or all is answered.
pub fn nothing_else_is_under_way()
    ensures takes { TakenIsAlone }
    ensures waits { WaitingIsAlone }
    ensures quiet { QuietUnlessAsked }
{}
