//! What a request will answer or pass on.
ghost use Rattle.std.specs.Prelude.{◌≡◌, IfOk};
ghost use Rattle.lqh_block.specs.Ready.{IsReady, work_answer};

use crate::request::Request;
use sig_core::{Answer, HeldAnswer, HeldWork, NoMemory, Op, Rows};
use std::alloc::Global;

/// What performing a request answers, or passes on, in memory of its own. It is made before
/// anything changes, so that performing the request wants none.
#[derive(Drop)]
pub struct Ready {
    /// The answer to an operation, as the rows are. That of a store is `Done`.
    pub answer: HeldAnswer,
    /// The store that the next replica is asked for.
    pub onward: HeldWork,
}

impl Ready {
    /// What a request answers or passes on where its lock is granted.
    ///
    /// # Errors
    /// `NoMemory`.
    pub fn new<R: Rows>(alloc: Global, rows: &R, request: &Request) -> Result<Ready, NoMemory>
        ensures { IfOk result (IsReady (R.state_of rows.now) request.now) }
    {
        let answer = HeldAnswer::new(alloc, &work_answer(rows, request))?;
        let onward = request.work.stored()?;
        Ok(Ready { answer, onward })
    }
}

// What a request answers where its write takes effect, or doesn't. What stores whatever the row is doesn't
// look for it.
#[tactic(auto, unfolding(sig_core::specs::Op::answer_to))]
fn work_answer<R: Rows>(rows: &R, request: &Request) -> Answer
    ensures { result ≡ work_answer (R.state_of rows.now) request.now.tx request.now.work }
{
    match request.work.operation() {
        Some(Op::Put(_, _)) => Answer::Done,
        Some(op) => op.answer_to(&rows.seen(request.tx, op.key())),
        None => Answer::Done,
    }
}
