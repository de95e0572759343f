//! How far the copying has come.
use sig_core::{Held, Key, Member, Value};

/// A member that begins anew, and the epoch of the rows that it has on its disk, where it has rows of
/// its own.
#[derive(Clone, Copy)]
pub struct Joiner {
    pub member: Member,
    pub own: Option<u64>,
}

/// How far the joining of a member has come.
#[derive(Clone, Copy)]
pub enum Stage {
    /// None is under way.
    Resting,
    /// A global checkpoint is asked for.
    FirstCheckpoint { joiner: Joiner },
    /// What was under way at the members of its group is to end, and so many have still to tell so.
    Draining { joiner: Joiner, awaited: usize },
    /// Its fragments are copied, and so many aren't yet.
    Fragments { joiner: Joiner, awaited: usize },
    /// It is to save its rows.
    Saving { joiner: Joiner },
    /// It has saved them, and another global checkpoint is asked for.
    LastCheckpoint { joiner: Joiner },
    /// It is to become a full member.
    Promoting { joiner: Joiner },
}

/// A fragment that is to be copied to a member that begins anew, for the node that asked for it.
#[derive(Clone, Copy)]
pub struct Task {
    pub from: u8,
    pub joiner: Joiner,
    pub fragment: u8,
}

/// Which row is on its way. `next` is the place behind it, where there is one.
#[derive(Drop)]
pub enum Feed {
    /// None: nothing is to be copied.
    Idle,
    /// The next row of the fragment is asked for.
    Scanning {
        task: Task,
    },
    /// The member is told that its own row of this key is the row.
    Naming {
        task: Task,
        row: Held<(Key, Value)>,
        epoch: u64,
        next: Option<u64>,
    },
    /// The row of this key is sent to the member.
    Sending {
        task: Task,
        key: Key,
        next: Option<u64>,
    },
}
