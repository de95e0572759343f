//! A load, wave by wave.
ghost use Rattle.std.specs.Prelude.{◌≡◌, ◌≤◌, ◌<◌, ◌*◌, ◌++◌, [], IfOk, OnErr, option_to_list};
ghost use Rattle.load_gen.specs.Load.{closes_after, size_of, waves_of};
ghost use Rattle.load_gen.specs.Random.{drawn, first};

use crate::random::first;
use crate::waves::transactions;
use script_lang::Command;
use sig_core::{NoMemory, Seq};
use std::alloc::Global;

/// The transactions of a wave; the last wave has the rest.
pub const WAVE: u32 = 16;

/// The waves between two global checkpoints.
const WAVES_TO_CHECKPOINT: u32 = 64;

/// What a load asks for at once.
#[derive(Drop)]
pub enum Asked {
    /// A batch of transactions, which run side by side: the commands between `batch` and `end`.
    Wave(Seq<Command>),
    /// A global checkpoint, alone.
    Checkpoint,
}

/// A load on its way. It is a function of how many transactions it has, and of its seed, whatever the
/// cluster.
#[derive(Drop)]
pub struct Load {
    transactions: u32,
    seed: u64,
    /// The waves that it has asked for.
    waves: u32,
    /// Where the ring stands, for the next wave.
    x: u64,
    /// A checkpoint comes next.
    closes: bool,
    ghost in_range: { waves ≤ waves_of transactions },
    ghost ring: { waves < waves_of transactions → x ≡ drawn (48 * waves) (first seed) },
}

impl Load {
    ghost use Rattle.load_gen.specs.Load.{load};
    ghost use Rattle.load_gen.specs.Left.{left};

    /// The load of so many transactions, by a seed.
    #[tactic(auto, using(crate::proofs::Draws::none_yet))]
    pub fn new(transactions: u32, seed: u64) -> Load
        ensures { left result ≡ load transactions seed }
    {
        Load {
            transactions,
            seed,
            waves: 0,
            x: first(seed),
            closes: false,
        }
    }

    /// What it asks for next; None at its end.
    ///
    /// # Errors
    /// `NoMemory`, and then the load is as it was.
    #[tactic(auto, using(crate::proofs::Loads::steps))]
    pub fn next(&mut self, alloc: Global) -> Result<Option<Asked>, NoMemory>
        ensures asked { IfOk result (λ asked. left self.old ≡ option_to_list asked ++ left self.new) }
        ensures ended { result ≡ Ok None → left self.old ≡ [] }
        ensures err { OnErr result (self.new ≡ self.old) }
    {
        if self.closes {
            self.closes = false;
            return Ok(Some(Asked::Checkpoint));
        }
        let count = waves_of(self.transactions);
        if self.waves == count {
            return Ok(None);
        }
        let size = size_of(self.transactions, self.waves);
        let (commands, x) = transactions(alloc, size, self.x)?;
        self.waves += 1;
        self.x = x;
        self.closes = closes_after(self.waves, count);
        Ok(Some(Asked::Wave(commands)))
    }
}

// How many waves so many transactions have.
fn waves_of(transactions: u32) -> u32
    ensures { result ≡ waves_of transactions }
{
    ((transactions as u64 + WAVE as u64 - 1) / WAVE as u64) as u32
}

// How many of them the wave of this number has.
fn size_of(transactions: u32, wave: u32) -> u8
    ensures { result ≡ size_of transactions wave }
{
    let asked = WAVE as u64 * wave as u64;
    (transactions as u64).saturating_sub(asked).min(WAVE as u64) as u8
}

// A checkpoint follows where there were so many of `count` waves.
fn closes_after(waves: u32, count: u32) -> bool
    ensures { result ≡ closes_after waves count }
{
    waves == count || waves % WAVES_TO_CHECKPOINT == 0
}
