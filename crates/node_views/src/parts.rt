//! The blocks of a host.
ghost use Rattle.std.specs.Prelude.{◌≡◌, ◌≤◌, ◌+◌, IfOk, IfSome, None, OnOk, length, true};
ghost use Rattle.sig_core.specs.Step.{IsTaken};
ghost use Rattle.node_views.specs.Blocks.{HasRoomFor, fence_at, is_shell, parts_entered, parts_row, settled_at};
ghost use Rattle.node_views.specs.Blocks.{stop_at};

use crate::ldm_part::LdmPart;
use crate::main_part::MainPart;
use crate::shell_part::ShellPart;
use crate::tc_part::TcPart;
use sig_core::{BlockId, Held, NoMemory, Outs, Signal, StopCause, View};
use std::alloc::Global;

/// The blocks of a host: those of the shell's, or of a part of a node.
#[derive(Drop)]
pub enum Parts {
    Shell(ShellPart),
    Main(MainPart),
    Tc(TcPart),
    Ldm(LdmPart),
}

impl Parts {
    /// The block that a signal is for handles it. Answers the view that the membership settles on, which
    /// the host is to install in the same event, and tells why the host is to stop, where it is.
    ///
    /// # Errors
    /// `NoMemory`.
    #[inline(always)]
    #[tactic(auto, using(crate::proofs::RoomLemmas::shell_room, crate::proofs::RoomLemmas::some_room))]
    pub fn handle(
        &mut self,
        alloc: Global,
        signal: &Signal,
        out: &mut Outs,
        stops: &mut Option<StopCause>,
    ) -> Result<Option<Held<View>>, NoMemory>
        requires room { HasRoomFor self.old out.old }
        requires told { stops.old ≡ None }
        ensures taken { OnOk result (IsTaken (parts_row self.old signal.now) self.new out.old out.new) }
        ensures settled { IfOk result (λ settled. settled ≡ settled_at self.old signal.now) }
        ensures stops { OnOk result (stops.new ≡ stop_at self.old signal.now) }
        ensures few { IfOk result (λ settled. IfSome settled (λ v. length out.new.sends ≤ length out.old.sends + 1)) }
    {
        match self {
            Parts::Shell(part) => part.handle(alloc, signal, out)?,
            Parts::Main(part) => return part.handle(alloc, signal, out, stops),
            Parts::Tc(part) => part.handle(alloc, signal, out)?,
            Parts::Ldm(part) => part.handle(alloc, signal, out)?,
        }
        Ok(None)
    }

    /// A view is installed in each block. That adds three signals at most.
    pub fn install(&mut self, view: &View, out: &mut Outs)
        requires { length out.old.sends + 4 ≤ 16 }
        ensures taken { IsTaken (parts_entered self.old view.now) self.new out.old out.new }
        ensures few { length out.new.sends ≤ length out.old.sends + 3 }
        ensures unmarked { out.new.marks ≡ out.old.marks }
        ensures shell { is_shell self.new ≡ true → out.new.sends ≡ out.old.sends }
    {
        match self {
            Parts::Shell(part) => part.install(view, out),
            Parts::Main(part) => part.install(view, out),
            Parts::Tc(part) => part.install(view, out),
            Parts::Ldm(part) => part.install(view, out),
        }
    }

    /// The number below which a block is fenced off, in a host whose view has this number. Fenced
    /// signals of lesser numbers are dropped.
    pub fn fence_at(&self, block: BlockId, number: u64) -> u64
        ensures { result ≡ fence_at self.now block number }
    {
        match (self, block) {
            (Parts::Tc(part), BlockId::Tc) => part.coordinator.fence(),
            (Parts::Tc(part), BlockId::Dih) => part.dih.fence(),
            (Parts::Ldm(part), BlockId::Lqh) => part.fence,
            _ => number,
        }
    }
}
