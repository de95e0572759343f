//! The blocks of a node's coordinating part.
ghost use Rattle.std.specs.Prelude.{◌≡◌, ◌≤◌, ◌+◌, IfOk, OnOk, length};
ghost use Rattle.sig_core.specs.Step.{HasRoom, IsTaken};
ghost use Rattle.dih_node.specs.Dih.{fresh_dih};
ghost use Rattle.takeover_block.specs.State.{resting};
ghost use Rattle.tc_views.specs.Coordinator.{fresh_coordinator};
ghost use Rattle.node_views.specs.Parts.{tc_entered, tc_row};

use dih_node::Dih;
use frag_map::Layout;
use sig_core::{Actor, BlockId, Member, NoMemory, Outs, Signal, View};
use std::alloc::Global;
use takeover_block::Takeover;
use tc_views::Coordinator;

/// The coordinator of a node, the takeover of those that failed, and the block that gives epochs.
#[derive(Drop)]
pub struct TcPart {
    pub coordinator: Coordinator,
    pub takeover: Takeover,
    pub dih: Dih,
}

impl TcPart {
    /// The part of a member that begins in this layout and with this current epoch, in a life that
    /// starts from the epoch `start`.
    ///
    /// # Errors
    /// `NoMemory`.
    pub fn new(
        alloc: Global,
        member: Member,
        layout: &Layout,
        epoch: u64,
        start: u64,
    ) -> Result<TcPart, NoMemory>
        ensures coordinator { IfOk result (λ p. p.coordinator ≡ fresh_coordinator member.node member.start layout.now) }
        ensures takeover { IfOk result (λ p. p.takeover ≡ resting member.node layout.now) }
        ensures dih { IfOk result (λ p. p.dih ≡ fresh_dih member.node layout.now.view.number epoch start) }
    {
        let coordinator = Coordinator::new(alloc, member.node, member.start, *layout)?;
        let takeover = Takeover::new(alloc, member.node, *layout);
        let dih = Dih::new(alloc, member.node, layout.view().number, epoch, start)?;
        Ok(TcPart {
            coordinator,
            takeover,
            dih,
        })
    }

    /// The block that a signal is for handles it.
    ///
    /// # Errors
    /// `NoMemory`.
    #[inline(always)]
    #[tactic(auto, unfolding(crate::specs::Parts::tc_row))]
    pub fn handle(&mut self, alloc: Global, signal: &Signal, out: &mut Outs) -> Result<(), NoMemory>
        requires { HasRoom out.old }
        ensures { OnOk result (IsTaken (tc_row self.old signal.now.to.block signal.now) self.new out.old out.new) }
    {
        match signal.to.block {
            BlockId::Tc => self.coordinator.handle(alloc, signal, out),
            BlockId::Takeover => self.takeover.handle(alloc, signal, out),
            BlockId::Dih => self.dih.handle(alloc, signal, out),
            _ => Ok(()),
        }
    }

    /// A view is installed in each block.
    pub fn install(&mut self, view: &View, out: &mut Outs)
        requires { length out.old.sends + 3 ≤ 16 }
        ensures taken { IsTaken (tc_entered self.old view.now) self.new out.old out.new }
        ensures few { length out.new.sends ≤ length out.old.sends + 3 }
        ensures unmarked { out.new.marks ≡ out.old.marks }
    {
        self.coordinator.install(view, out);
        self.takeover.install(view, out);
        self.dih.install(view, out);
    }
}
