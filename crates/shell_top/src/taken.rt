//! The replies that a world has for the shell.
ghost use Rattle.std.specs.Prelude.{◌≡◌, [], IfOk, OnOk, OnErr};
ghost use Rattle.shell_top.specs.OnDisks.{LivesOn};
ghost use Rattle.shell_top.specs.Seen.{HasGrown, seen_on};
ghost use Rattle.shell_top.specs.Setting.{setting_of};
ghost use Rattle.world_core.specs.Start.{Start};
ghost use Rattle.world_views.specs.Driven.{IsSound};
ghost use Rattle.world_views.specs.WorldOf.{whole_of};

use disk_world::DiskWorld;
use host_io::Disk;
use sig_core::{ApiReply, NoMemory};
use std::alloc::Global;

/// Takes all replies of the world, in order.
///
/// # Errors
/// `NoMemory`, and then some replies may be lost.
pub fn take_replies<D: Disk>(
    alloc: Global,
    world: &mut DiskWorld<D>,
) -> Result<Vec<ApiReply>, NoMemory>
    ghost start: { Start }
    requires { IsSound start (whole_of world.old.world) }
    ensures told { OnOk result (whole_of world.new.world ≡ record (whole_of world.old.world) { replies = [] }) }
    ensures replies { IfOk result (λ replies. replies.items ≡ (whole_of world.old.world).replies) }
    ensures err { OnErr result ((whole_of world.new.world).logs ≡ (whole_of world.old.world).logs) }
    ensures setting { setting_of world.new ≡ setting_of world.old }
    ensures grown { HasGrown (seen_on D.told D.faults world.old.disks.items) (seen_on D.told D.faults world.new.disks.items) }
    ensures lived { OnOk result (LivesOn start D.told world.old world.new) }
{
    let mut replies = Vec::new(alloc);
    while let Some(reply) = world.next_reply() {
        replies.extend_from_slice(&[reply])?;
    }
    Ok(replies)
}
