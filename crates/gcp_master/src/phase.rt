//! How far a master has come.
use crate::known::Known;

/// What was asked for and isn't begun yet.
#[derive(Clone, Copy, Debug, PartialEq, Eq)]
pub struct Asked {
    /// A global checkpoint, by the client.
    pub global: bool,
    /// A global checkpoint, by the copying of this node.
    pub copy: bool,
    /// A global checkpoint, by a local one.
    pub local: bool,
    /// A micro closing, by the client.
    pub micro: bool,
}

/// An epoch that is being closed.
#[derive(Clone, Copy, Debug, PartialEq, Eq)]
pub struct Run {
    pub epoch: u64,
    /// The epoch that follows.
    pub next: u64,
    /// The copying of this node asked for it.
    pub copy: bool,
    /// A local checkpoint asked for it.
    pub local: bool,
}

/// How far a master has come.
#[derive(Clone, Copy)]
pub enum Phase {
    /// Nothing was ordered since its view was installed.
    Unordered,
    /// It asks the members how far they are, and knows this by now.
    Gathering { known: Known },
    /// No epoch is being closed.
    Resting { current: u64 },
    /// The members are to give no epoch.
    Preparing { run: Run },
    /// The members are to give the epoch that follows, and to end what has this one.
    Committing { run: Run },
    /// The members are to note that the epoch is closed.
    Closing { run: Run },
    /// The members are to save what has the epoch.
    Saving { run: Run },
    /// The members are to write the system file.
    Copying { run: Run },
}
