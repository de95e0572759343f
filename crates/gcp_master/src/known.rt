//! What a master knows of how far the members are.
ghost use Rattle.std.specs.Prelude.{◌≡◌};
ghost use Rattle.gcp_master.specs.Known.{greater, learned, lesser, nothing_known, resumed};

use crate::numbers::is_first;
use crate::phase::{Phase, Run};

/// What a block of a member tells: the block of epochs all but `saved`, that of rows `closed` and
/// `saved`. What a block doesn't tell is 0.
#[derive(Clone, Copy, Debug, PartialEq, Eq)]
pub struct Told {
    /// The epoch that it gives, which is never 0 at a full member.
    pub current: u64,
    /// The epoch of the last order to prepare or to commit, and the one that follows it.
    pub prepared: u64,
    pub next: u64,
    pub closed: u64,
    pub saved: u64,
    pub durable: u64,
}

/// What the full members have told by now.
#[derive(Clone, Copy, Debug, PartialEq, Eq)]
pub struct Known {
    /// The greatest epoch that an order named, and the greatest that was to follow.
    pub epoch: u64,
    pub next: u64,
    /// The least and the greatest current epoch.
    pub least: u64,
    pub greatest: u64,
    /// The least epochs that were told as closed, saved and durable.
    pub closed: u64,
    pub saved: u64,
    pub durable: u64,
}

fn lesser(one: u64, other: u64) -> u64
    ensures { result ≡ lesser one other }
{
    if one < other { one } else { other }
}

fn greater(one: u64, other: u64) -> u64
    ensures { result ≡ greater one other }
{
    if one < other { other } else { one }
}

impl Known {
    /// Nothing was told.
    pub fn nothing() -> Known
        ensures { result ≡ nothing_known }
    {
        Known {
            epoch: 0,
            next: 0,
            least: u64::MAX,
            greatest: 0,
            closed: u64::MAX,
            saved: u64::MAX,
            durable: u64::MAX,
        }
    }

    /// A block of a full member has told this.
    pub fn learn(self, told: Told) -> Known
        ensures { result ≡ learned self told }
    {
        if told.current == 0 {
            Known {
                epoch: self.epoch,
                next: self.next,
                least: self.least,
                greatest: self.greatest,
                closed: lesser(self.closed, told.closed),
                saved: lesser(self.saved, told.saved),
                durable: self.durable,
            }
        } else {
            Known {
                epoch: greater(self.epoch, told.prepared),
                next: greater(self.next, told.next),
                least: lesser(self.least, told.current),
                greatest: greater(self.greatest, told.current),
                closed: lesser(self.closed, told.closed),
                saved: self.saved,
                durable: lesser(self.durable, told.durable),
            }
        }
    }

    /// Where a master goes on, when all have told.
    pub fn resume(self) -> Phase
        ensures { result ≡ resumed self }
    {
        let run = Run {
            epoch: self.epoch,
            next: self.next,
            copy: false,
            local: false,
        };
        if self.greatest < self.next {
            Phase::Preparing { run }
        } else if self.least < self.next {
            Phase::Committing { run }
        } else if self.closed < self.epoch {
            Phase::Committing { run }
        } else if is_first(self.next) && self.saved < self.epoch {
            Phase::Committing { run }
        } else if is_first(self.next) && self.durable < self.epoch {
            Phase::Copying { run }
        } else {
            Phase::Resting { current: self.next }
        }
    }
}
