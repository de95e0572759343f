//! The signals that are passed.
ghost use Rattle.std.specs.Prelude.{◌≡◌, IfOk};
ghost use Rattle.link_queue.specs.End.{IsSentBy};

use sig_core::{
    Body, Boxed, CLIENT, Held, HostId, HostSignal, Member, Members, NoMemory, Signal, View, Work,
};
use std::alloc::Global;

const NOBODY: Member = Member { node: 0, start: 0 };

/// A signal of host 1 with this number.
///
/// # Errors
/// `NoMemory`.
pub fn numbered(alloc: Global, view: &Held<View>, seq: u64) -> Result<Boxed<Signal>, NoMemory>
    ensures { IfOk result (λ signal. IsSentBy 1 signal) }
{
    let signal = Signal {
        from: HostId(1),
        member: NOBODY,
        to: CLIENT,
        seq,
        stamp: seq,
        view: view.share()?,
        body: Body::Host(HostSignal::Continue {
            work: Work::Members,
            at: 0,
        }),
    };
    Boxed::new(alloc, signal)
}

/// A view for their headers.
///
/// # Errors
/// `NoMemory`.
pub fn some_view(alloc: Global) -> Result<Held<View>, NoMemory> {
    Held::new(
        alloc,
        View {
            number: 1,
            full: Members::new(),
            starting: Members::new(),
        },
    )
}
