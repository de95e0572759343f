//! What a line asks for.
use sig_core::Op;

/// A command of a script. Names are the numbers that a script gives to transactions, 1 to 65,535;
/// nodes are 1 to 8.
#[derive(Clone, Copy)]
pub enum Command {
    /// Begin a transaction of that name, at a coordinator of that node if one is given.
    Begin { name: u16, node: Option<u8> },
    /// An operation of the transaction of that name, or of one of its own.
    Operate { name: Option<u16>, op: Op },
    Commit { name: u16 },
    Abort { name: u16 },
    /// The lines up to `End` are a batch.
    Batch,
    End,
    Kill { node: u8 },
    /// In a batch: stop the node when its coordinator's host has taken this many signals after the
    /// order, 0 to 100,000.
    KillAfter { node: u8, after: u32 },
    Cut { one: u8, other: u8 },
    /// Let this many rounds pass, 1 to 16.
    Tick { rounds: u8 },
    /// Close the current epoch, in memory alone.
    Micro,
    /// Close the current epoch, and make it durable.
    Gcp,
    Lcp,
    Start { node: u8 },
    Crash,
    Restart,
    Rows { node: u8 },
    Digest { node: u8 },
    View,
    Quit,
}
