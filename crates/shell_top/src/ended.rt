//! How a session ends.
ghost use Rattle.std.specs.Prelude.{◌≡◌};
ghost use Rattle.shell_top.specs.Chapters.{ending_for};
ghost use Rattle.shell_top.specs.Printed.{is_cut_short};

use host_io::Disk;
use script_lang::LineFault;
use sig_core::{Life, RestartFault, Shape};

/// Why a session ended.
#[derive(Clone, Copy, Debug, PartialEq, Eq)]
pub enum Ending {
    /// The source was read to its end, or to `quit`.
    Finished,
    /// The words ask for no cluster that there may be.
    Words,
    /// The line is outside the grammar.
    Refused {
        line: u32,
        fault: LineFault,
    },
    /// The source failed.
    ReadFault,
    /// The sink failed.
    WriteFault,
    NoMemory,
    /// The line has more than 512 bytes, or is the 65,537th.
    TooLong {
        line: u32,
    },
    /// As of `RestartFault`, where a life was to begin; so are the next three.
    DiskFault {
        node: u8,
        count: u64,
    },
    OtherShape {
        found: Shape,
        asked: Shape,
    },
    Damaged {
        node: u8,
        file: u8,
        at: u64,
        byte: u8,
    },
    UsedUp {
        generation: u64,
        epoch: u64,
    },
}

impl From<RestartFault> for Ending {
    /// How a session ends in which a life doesn't begin for this.
    fn from(fault: RestartFault) -> Ending
        ensures { result ≡ ending_for fault }
    {
        match fault {
            RestartFault::DiskFault { node, count } => Ending::DiskFault { node, count },
            RestartFault::OtherShape { found, asked } => Ending::OtherShape { found, asked },
            RestartFault::Damaged {
                node,
                file,
                at,
                byte,
            } => Ending::Damaged {
                node,
                file,
                at,
                byte,
            },
            RestartFault::UsedUp { generation, epoch } => Ending::UsedUp { generation, epoch },
            RestartFault::NoMemory => Ending::NoMemory,
        }
    }
}

/// Whether a session that ends so may have printed only a first part of its replies.
pub fn is_cut_short(ending: &Ending) -> bool
    ensures { result ≡ is_cut_short ending.now }
{
    matches!(ending, Ending::WriteFault | Ending::NoMemory)
}

/// What a session leaves.
#[derive(Drop)]
pub struct Ended {
    /// The exit status: 0 where the source was read to its end or to `quit`, or a trace is right; 1 where
    /// the words were refused; 2 at a line outside the grammar; 3 where the source failed, 4 where the
    /// sink did; 5 for want of memory, also of a host where the status would be 0; where a life didn't
    /// begin 6 for a disk that failed, 7 for disks of another shape, 8 for a damaged one, 10 where no
    /// numbers are left; 9 at a line that is too long, and at a trace that is; where a trace is checked 11
    /// for bytes that are none or tell not one log a host, 12 for a step that the machine doesn't make.
    pub status: u8,
    /// What the hosts did, life by life: none where the words were refused, or the first life didn't
    /// begin, and then nothing was read; and none where a trace was checked.
    pub lives: Vec<Life>,
    /// The disks that were handed in, in their order: of as many nodes as the cluster has, and those
    /// behind them as they were.
    pub disks: Vec<Box<dyn Disk + Send>>,
}
