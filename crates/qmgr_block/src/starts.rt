//! Starts of nodes, of which the latest is remembered for each node.
ghost use Rattle.std.specs.Prelude.{◌≡◌};
ghost use Rattle.qmgr_block.specs.Starts.{all_noted, covers, no_starts, noted};

use sig_core::Member;

/// How many numbers a node may have, with 0 for the shell's host.
pub const NODES: usize = 9;

/// Starts of nodes. Of each node all starts up to one are among them: a node starts anew only when
/// the hosts of its start before have stopped.
#[derive(Clone, Copy)]
pub struct Starts {
    /// For each node, at its number, the first start that isn't among them.
    pub ends: [u64; NODES],
}

impl Starts {
    /// No start of any node.
    pub fn new() -> Starts
        ensures { result ≡ no_starts }
    {
        Starts { ends: [0; NODES] }
    }

    /// Whether the member's start is among them.
    #[tactic(auto, unfolding(crate::specs::Starts::covers))]
    pub fn covers(&self, member: &Member) -> bool
        ensures { result ≡ covers self.now member.now }
    {
        match self.ends.get(member.node as usize) {
            Some(end) => u64::from(member.start) < *end,
            None => false,
        }
    }

    /// The member's start is among them from now on, and with it the earlier ones of its node.
    #[tactic(auto, unfolding(crate::specs::Starts::noted))]
    pub fn note(&mut self, member: &Member)
        ensures { self.new ≡ noted self.old member.now }
    {
        let node = member.node as usize;
        if node < NODES && !self.covers(member) {
            self.ends[node] = u64::from(member.start) + 1;
        }
    }

    /// The starts of all these members are.
    #[tactic(auto, using(crate::proofs::FoldLemmas::folds))]
    pub fn note_all(&mut self, members: &[Member])
        ensures { self.new ≡ all_noted self.old members.now }
    {
        for member in members {
            self.note(member);
        }
    }
}
