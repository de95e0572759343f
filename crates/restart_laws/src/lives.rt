//! Lives on disks, from the beginning to a restart.
ghost use Rattle.restart_laws.specs.Lived.{LivesAsk, LivesBegin, LivesGoOn, LivesHear, LivesRestart};
ghost use Rattle.restart_laws.specs.Lived.{OpenedAreReady, RowsBegin};

use saved_laws::{saved_before_is_durable, walked_checkpoints_stand};

/// A life begins on disks that are ready for it, as those are that it was opened on.
pub fn lives_begin()
    ensures begins { LivesBegin }
    ensures opened { OpenedAreReady }
    ensures rows { RowsBegin }
{}

/// It goes on where hosts do, each with what the disk of its node keeps of it.
pub fn lives_go_on()
    ensures { LivesGoOn }
{
    walked_checkpoints_stand();
    saved_before_is_durable();
}

/// Where the shell asks for something, it goes on with the same disks; and where it is given replies.
pub fn lives_ask_and_hear()
    ensures asks { LivesAsk }
    ensures hears { LivesHear }
{}

/// Whatever a crash leaves of its disks, a restart comes to its history up to one epoch, which isn't below
/// any that was reported durable.
pub fn lives_restart()
    ensures { LivesRestart }
{}
