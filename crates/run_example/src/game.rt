//! The steps and signals of the game.

/// What a signal says. Those from `Serve` to `Stop` come over no link: a host is asked.
#[derive(Clone, Copy)]
pub enum Kind {
    /// Play a ball to another host.
    Serve { host: u64, ball: u64 },

    /// Make another host.
    Make { host: u64 },

    /// Stop playing.
    Stop,

    Ping { ball: u64 },

    Pong { ball: u64 },

    /// The host stopped.
    Closed,
}

#[derive(Clone, Copy)]
pub struct Signal {
    pub from: u64,
    pub to: u64,

    /// The stamp of the step that sent it.
    pub stamp: u64,

    pub kind: Kind,
}

/// A host took a signal.
#[derive(Clone, Copy)]
pub struct Step {
    pub stamp: u64,
    pub signal: Signal,
}
