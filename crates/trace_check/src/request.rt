//! Requests, once more.
ghost use Rattle.std.specs.Prelude.{◌≡◌, IfOk, IfSome};

use sig_core::{ApiReq, BatchLine, NoMemory, Seq};
use std::alloc::Global;

/// The same request.
///
/// # Errors
/// `NoMemory`.
pub fn copy_request(alloc: Global, request: &ApiReq) -> Result<ApiReq, NoMemory>
    ensures { IfOk result (λ copy. copy ≡ request.now) }
{
    match request {
        ApiReq::Operate { name, op } => Ok(ApiReq::Operate {
            name: *name,
            op: op.share()?,
        }),
        ApiReq::Unique { name, op } => Ok(ApiReq::Unique {
            name: *name,
            op: op.share()?,
        }),
        ApiReq::Batch { lines } => Ok(ApiReq::Batch {
            lines: copy_lines(alloc, lines.as_slice())?,
        }),
        other => match copy_order(other) {
            Some(copy) => Ok(copy),
            None => Err(NoMemory),
        },
    }
}

// The same request, where it holds no memory.
fn copy_order(request: &ApiReq) -> Option<ApiReq>
    ensures { IfSome result (λ copy. copy ≡ request.now) }
{
    match request {
        ApiReq::Begin { name, node } => Some(ApiReq::Begin {
            name: *name,
            node: *node,
        }),
        ApiReq::Commit { name } => Some(ApiReq::Commit { name: *name }),
        ApiReq::Abort { name } => Some(ApiReq::Abort { name: *name }),
        ApiReq::Kill { node } => Some(ApiReq::Kill { node: *node }),
        ApiReq::Cut { one, other } => Some(ApiReq::Cut {
            one: *one,
            other: *other,
        }),
        ApiReq::Tick { round, of } => Some(ApiReq::Tick {
            round: *round,
            of: *of,
        }),
        ApiReq::Gcp => Some(ApiReq::Gcp),
        ApiReq::Lcp => Some(ApiReq::Lcp),
        ApiReq::Micro => Some(ApiReq::Micro),
        other => copy_question(other),
    }
}

// The same request, where it is about no transaction and no epoch.
fn copy_question(request: &ApiReq) -> Option<ApiReq>
    ensures { IfSome result (λ copy. copy ≡ request.now) }
{
    match request {
        ApiReq::Start { node, own } => Some(ApiReq::Start {
            node: *node,
            own: *own,
        }),
        ApiReq::Crash => Some(ApiReq::Crash),
        ApiReq::Restart => Some(ApiReq::Restart),
        ApiReq::Rows { node } => Some(ApiReq::Rows { node: *node }),
        ApiReq::Digest { node } => Some(ApiReq::Digest { node: *node }),
        ApiReq::View => Some(ApiReq::View),
        ApiReq::Waits => Some(ApiReq::Waits),
        ApiReq::Pending => Some(ApiReq::Pending),
        other => copy_later(other),
    }
}

// The same request, of the others.
fn copy_later(request: &ApiReq) -> Option<ApiReq>
    ensures { IfSome result (λ copy. copy ≡ request.now) }
{
    match request {
        ApiReq::Subscribe { subscriber } => Some(ApiReq::Subscribe {
            subscriber: *subscriber,
        }),
        ApiReq::Unsubscribe { subscriber } => Some(ApiReq::Unsubscribe {
            subscriber: *subscriber,
        }),
        ApiReq::Backup { backup } => Some(ApiReq::Backup { backup: *backup }),
        ApiReq::Dump { backup } => Some(ApiReq::Dump { backup: *backup }),
        _ => None,
    }
}

fn copy_lines(alloc: Global, lines: &[BatchLine]) -> Result<Seq<BatchLine>, NoMemory>
    ensures { IfOk result (λ copies. copies ≡ lines.now) }
{
    Ok(Seq::from_vec(Vec::from_slice(alloc, lines)?))
}
