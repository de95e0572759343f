//! Who sends signals.
ghost use Rattle.std.specs.Prelude.{◌≡◌};
ghost use Rattle.world_views.specs.Machine.{sender};

use crate::hosts::Made;
use sig_core::{Held, Member, Outgoing, View};

/// The host of whose step signals are sent, as their headers tell.
#[derive(Drop)]
pub struct Sender {
    pub host: u32,
    pub member: Member,
    /// The stamp of the step.
    pub stamp: u64,
    /// The view of the host.
    pub view: Held<View>,
}

impl Sender {
    /// A host in this view, by its step of this stamp.
    pub fn of(made: &Made, host: u32, stamp: u64, view: Held<View>) -> Sender
        ensures { result ≡ sender made.now host stamp view }
    {
        Sender {
            host,
            member: made.member_at(host),
            stamp,
            view,
        }
    }
}

/// Drops what isn't sent, which is seldom. Not inlined, so that what is sent is moved as a whole, and not taken
/// apart.
#[cold]
#[inline(never)]
pub fn refuse(_sent: Outgoing) {}
