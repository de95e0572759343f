//! The blocks of the shell's host.
ghost use Rattle.std.specs.Prelude.{◌≡◌, ◌≤◌, ◌+◌, IfOk, OnOk, length};
ghost use Rattle.sig_core.specs.Step.{IsTaken};
ghost use Rattle.api_views.specs.Rounds.{HasAllRoom};
ghost use Rattle.api_views.specs.State.{fresh_client};
ghost use Rattle.arbiter_block.specs.Arbiter.{fresh_arbiter};
ghost use Rattle.node_views.specs.Parts.{shell_entered, shell_row};

use api_views::Client;
use arbiter_block::Arbiter;
use sig_core::{Actor, BlockId, NoMemory, Outs, Signal, View};
use std::alloc::Global;

/// The client's side, and the block that grants views.
#[derive(Drop)]
pub struct ShellPart {
    pub client: Client,
    pub arbiter: Arbiter,
}

impl ShellPart {
    /// The blocks of a cluster of so many nodes, 1 to 8, that begins in this view.
    ///
    /// # Errors
    /// `NoMemory`.
    pub fn new(alloc: Global, nodes: u8, view: &View) -> Result<ShellPart, NoMemory>
        ensures client { IfOk result (λ p. p.client ≡ fresh_client nodes view.now) }
        ensures arbiter { IfOk result (λ p. p.arbiter ≡ fresh_arbiter view.now.full) }
    {
        let client = Client::new(alloc, nodes, view)?;
        let arbiter = Arbiter::new(view.full);
        Ok(ShellPart { client, arbiter })
    }

    /// The block that a signal is for handles it.
    ///
    /// # Errors
    /// `NoMemory`.
    #[inline(always)]
    #[tactic(auto, using(crate::proofs::RoomLemmas::all_has), unfolding(crate::specs::Parts::shell_row))]
    pub fn handle(&mut self, alloc: Global, signal: &Signal, out: &mut Outs) -> Result<(), NoMemory>
        requires { HasAllRoom out.old }
        ensures { OnOk result (IsTaken (shell_row self.old signal.now.to.block signal.now) self.new out.old out.new) }
    {
        match signal.to.block {
            BlockId::Api => self.client.handle(alloc, signal, out),
            BlockId::Arbiter => self.arbiter.handle(alloc, signal, out),
            _ => Ok(()),
        }
    }

    /// A view is installed in each block.
    pub fn install(&mut self, view: &View, out: &mut Outs)
        requires { length out.old.sends + 2 ≤ 16 }
        ensures { IsTaken (shell_entered self.old view.now) self.new out.old out.new }
    {
        self.client.install(view);
        self.arbiter.install(view, out);
    }
}
