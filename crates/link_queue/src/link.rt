//! Links: how one is made, and what its two ends tell where one hand has both.
ghost use Rattle.std.specs.Prelude.{◌≡◌, true, false, [], IfOk};
ghost use mathlib.Core.List.{IsPrefix};
ghost use Rattle.crossbeam_queue.specs.Passes.{view, IsPassOf, IsSamePass};
ghost use Rattle.link_queue.specs.Rule.{pass_view};

use crate::rule::{Aside, Both, Ends, LINK_SIGNALS, Line, LinkPass, Route};
use crate::sender::LinkTx;
use crate::taker::LinkRx;
use sig_core::NoMemory;
use std::alloc::Global;
use std::marker::Brand;
use std::mem;
use std::sync::Arc;

/// A link from one host to another, with nothing in it: the end to send by, and the end to take by.
///
/// # Errors
/// `NoMemory`.
pub fn make(alloc: Global, from: u32, to: u32) -> Result<(LinkTx, LinkRx), NoMemory>
    ensures link { IfOk result (λ ends. ends.0.link ≡ ends.1.link) }
    ensures from { IfOk result (λ ends. (ends.0.from ≡ from) × (ends.1.from ≡ from)) }
    ensures to { IfOk result (λ ends. (ends.0.to ≡ to) × (ends.1.to ≡ to)) }
    ensures unsent { IfOk result (λ ends. ends.0.signals ≡ []) }
    ensures untaken { IfOk result (λ ends. ends.1.signals ≡ []) }
{
    let (line, mut pass) = Line::ruled(alloc, LINK_SIGNALS)?;
    let theirs = taker_of::<Brand>(&line, &mut pass, from, to);
    let line = Arc::new(alloc, line)?;
    let shared = Arc::try_clone(&line)?;
    let tx = LinkTx {
        line,
        pass,
        count: 0,
    };
    let rx = LinkRx {
        line: shared,
        pass: theirs,
        count: 0,
    };
    Ok((tx, rx))
}

/// Splits the taker's pass from the first one, for the route of the link.
fn taker_of<J: Route>(line: &Line, pass: &mut LinkPass, from: u32, to: u32) -> LinkPass
    requires pass { IsPassOf line.now pass.old }
    requires first { view pass.old ≡ pass_view true true 0 0 [] [] }
    requires route { (from ≡ J.from) × (to ≡ J.to) }
    ensures pass { IsSamePass pass.old pass.new × IsPassOf line.now result }
    ensures sender { view pass.new ≡ pass_view true false from to [] [] }
    ensures taker { view result ≡ pass_view false true from to [] [] }
{
    line.another::<Ends<J>>(pass)
}

/// Joins both ends of a link: what was taken begins what was sent.
pub fn join(tx: LinkTx, rx: LinkRx)
    requires link { tx.link ≡ rx.link }
    ensures { IsPrefix rx.signals tx.signals }
{
    let LinkTx { line, mut pass, .. } = tx;
    let LinkRx { pass: theirs, .. } = rx;
    line.absorb::<Both>(&mut pass, theirs);
    line.learn_as::<Both>(&mut pass);
}

/// Compares both ends of a link, and both go on: what was taken begins what was sent.
pub fn compare(tx: &mut LinkTx, rx: &mut LinkRx)
    requires link { tx.old.link ≡ rx.old.link }
    requires route { (tx.old.from ≡ rx.old.from) × (tx.old.to ≡ rx.old.to) }
    ensures same { (tx.new ≡ tx.old) × (rx.new ≡ rx.old) }
    ensures start { IsPrefix rx.old.signals tx.old.signals }
{
    let aside = tx.line.another::<Aside>(&mut tx.pass);
    let theirs = mem::replace(&mut rx.pass, aside);
    tx.line.absorb::<Both>(&mut tx.pass, theirs);
    tx.line.learn_as::<Both>(&mut tx.pass);
    rx.pass = tx.line.another::<Both>(&mut tx.pass);
}
