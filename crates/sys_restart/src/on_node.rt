//! Faults of reading, with the node whose disk was read.
ghost use Rattle.std.specs.Prelude.{◌≡◌};
ghost use Rattle.sys_restart.specs.Answers.{of_node};

use sig_core::{ReadFault, RestartFault};

/// A fault of reading the disk of this node.
pub fn of_node(node: u8, fault: ReadFault) -> RestartFault
    ensures { result ≡ of_node node fault }
{
    match fault {
        ReadFault::DiskFault { count } => RestartFault::DiskFault { node, count },
        ReadFault::Damaged { file, at, byte } => RestartFault::Damaged {
            node,
            file,
            at,
            byte,
        },
        ReadFault::NoMemory => RestartFault::NoMemory,
    }
}
