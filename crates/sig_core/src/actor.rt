//! What a block is.
ghost use Rattle.std.specs.Prelude.{◌≡◌, ◌≤◌, ◌+◌, length, OnOk, OnErr};
ghost use Rattle.sig_core.specs.declared.signal.Signal.{Signal};
ghost use Rattle.sig_core.specs.declared.view.View.{View};
ghost use Rattle.sig_core.specs.Step.{Step, HasRoom, IsTaken, IsUntouched};

use crate::no_memory::NoMemory;
use crate::outs::Outs;
use crate::signal::Signal;
use crate::view::View;
use std::alloc::Global;

/// A block: a state that signals move, step by step. What it does at a signal, and at the
/// installation of a view, is a function of its state; its code is proved to do just that.
pub trait Actor {
    /// What the block does at a signal.
    ghost step: { Self → Signal → Step Self };

    /// What the block does when its host installs a view.
    ghost installed: { Self → View → Step Self };

    /// Handles a signal.
    ///
    /// # Errors
    /// `NoMemory`, and then nothing has happened.
    fn handle(&mut self, alloc: Global, signal: &Signal, out: &mut Outs) -> Result<(), NoMemory>
        requires { HasRoom out.old }
        ensures ok { OnOk result (IsTaken (step self.old signal.now) self.new out.old out.new) }
        ensures err { OnErr result (IsUntouched self.old self.new out.old out.new) };

    /// Installs a view. Takes no memory, and adds at most one signal, by which the block goes on
    /// with what the installation leaves to do.
    fn install(&mut self, view: &View, out: &mut Outs)
        requires { length out.old.sends + 1 ≤ 16 }
        ensures taken { IsTaken (installed self.old view.now) self.new out.old out.new }
        ensures few { length out.new.sends ≤ length out.old.sends + 1 }
        ensures unmarked { out.new.marks ≡ out.old.marks };
}
