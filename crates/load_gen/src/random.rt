//! The ring of random numbers.
ghost use Rattle.std.specs.Prelude.{◌≡◌};
ghost use Rattle.load_gen.specs.Random.{drawn, first, next};

/// What is laid over a seed, so that small seeds begin with many bits.
const SPREAD: u64 = 0x9e37_79b9_7f4a_7c15;

/// Where the ring begins for a seed. It is never 0, from which there is no way out.
#[tactic(auto, unfolding(crate::specs::Random::first))]
pub fn first(seed: u64) -> u64
    ensures { result ≡ first seed }
{
    let spread = seed ^ SPREAD;
    if spread == 0 { 1 } else { spread }
}

/// The number behind another one, which is a draw.
#[tactic(auto, unfolding(crate::specs::Random::next))]
pub fn next(x: u64) -> u64
    ensures { result ≡ next x }
{
    let x = x ^ (x << 13);
    let x = x ^ (x >> 7);
    x ^ (x << 17)
}

/// The number so many draws behind another one.
#[tactic(auto, unfolding(crate::specs::Random::drawn))]
pub fn drawn(draws: u64, from: u64) -> u64
    ensures { result ≡ drawn draws from }
{
    let mut x = from;
    'draws: for _ in 0..draws {
        x = next(x);
    }
    x
}
