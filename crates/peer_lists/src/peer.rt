//! What a peer is.
ghost use Rattle.std.specs.Prelude.{◌≡◌, length, OnOk, OnErr};
ghost use Rattle.peer_lists.specs.Peers.{PeerState, with_signal};

use sig_core::{HostId, NoMemory, Signal};
use std::alloc::Global;

/// Another host, as a host has it: with a link to it and one from it, and signals that wait to go
/// into the former.
pub trait Peer {
    /// What a peer is seen as.
    ghost state_of: { Self → PeerState };

    /// Which host it is.
    fn host(&self) -> HostId
        ensures { result.0 ≡ (state_of self.now).host };

    /// How many signals went into the link to it.
    fn sent(&self) -> u64
        ensures { result ≡ length (state_of self.now).sent };

    /// How many signals came out of the link from it.
    fn taken(&self) -> u64
        ensures { result ≡ length (state_of self.now).taken };

    /// How many signals wait to go into the link to it.
    fn held(&self) -> usize
        ensures { result ≡ length (state_of self.now).waiting.signals };

    /// Sends it a signal, with the next number of its link: it waits behind the others, or is dropped
    /// where the peer has shut its links.
    ///
    /// # Errors
    /// `NoMemory`, and then nothing has changed.
    fn send(&mut self, alloc: Global, signal: Signal) -> Result<(), NoMemory>
        ensures ok { OnOk result (state_of self.new ≡ with_signal signal (state_of self.old)) }
        ensures err { OnErr result (state_of self.new ≡ state_of self.old) };
}
