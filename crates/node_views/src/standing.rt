//! Where a host stands in its cluster, whichever blocks it has.
ghost use Rattle.std.specs.Prelude.{◌≡◌, IfOk};
ghost use Rattle.node_views.specs.Fresh.{standing_in};

use api_views::is_member;
use frag_map::Layout;
use sig_core::{Held, HostId, Member, NoMemory, Seq, Shape, View};
use std::alloc::Global;

/// What a host knows beside its blocks.
#[derive(Drop)]
pub struct Standing {
    pub shape: Shape,
    /// The member that it is a host of; node 0 with start 0 is the shell's.
    pub member: Member,
    /// The view that it has installed.
    pub view: Held<View>,
    /// It has installed a view that its member is in: from then on one without it stops the host.
    pub has_joined: bool,
    /// How many signals it still takes before it is killed, the last of them not handled; none where
    /// it isn't to be.
    pub left: Option<u32>,
    /// The nodes that it has cut off, each by the first of its three hosts.
    pub cut: Seq<HostId>,
}

impl Standing {
    /// A host of the member begins in this layout.
    ///
    /// # Errors
    /// `NoMemory`.
    pub fn new(alloc: Global, member: Member, layout: &Layout) -> Result<Standing, NoMemory>
        ensures { IfOk result (λ standing. standing ≡ standing_in member layout.now) }
    {
        let view = Held::new(alloc, *layout.view())?;
        Ok(Standing {
            shape: layout.shape(),
            member,
            view,
            has_joined: is_member(layout.view(), &member),
            left: None,
            cut: Seq::new(alloc),
        })
    }
}
