//! How many buckets there are, and which one a key is in.
ghost use Rattle.std.specs.Prelude.{◌≡◌, ◌<◌, ◌+◌, MatchOption};
ghost use Rattle.linear_hash.specs.Growth.{IsGrowth, grown, home, home_of};

use sig_core::HashedKey;

/// The most buckets of a level: more than any memory holds.
pub const LEVEL_BUCKETS: usize = 1 << 60;

/// How far the buckets have grown: `size` is a power of two, the number of buckets with which the
/// level began, and the first `split` of them have been split.
#[derive(Clone, Copy)]
pub struct Growth {
    pub size: usize,
    pub split: usize,
}

/// The bucket of a number, from 0.
#[tactic(auto, using(crate::proofs::HomeLemmas::homes))]
pub fn home_of(growth: Growth, hash: u32) -> usize
    requires { IsGrowth growth }
    ensures value { result ≡ home_of growth hash }
    ensures below { result < growth.size + growth.split }
{
    let hash = hash as usize;
    let low = hash % growth.size;
    if low < growth.split {
        hash % (2 * growth.size)
    } else {
        low
    }
}

/// The bucket of a key, from 0.
#[tactic(auto, unfolding(crate::specs::Growth::home))]
pub fn home(growth: Growth, key: &HashedKey) -> usize
    requires { IsGrowth growth }
    ensures value { result ≡ home growth key.now.key }
    ensures below { result < growth.size + growth.split }
{
    home_of(growth, key.hash)
}

/// The buckets after one more was split; none where there would be more than memory holds.
pub fn grown(growth: Growth) -> Option<Growth>
    requires { IsGrowth growth }
    ensures value { MatchOption result (Unit {0}) (λ next. next ≡ grown growth) }
    ensures sound { MatchOption result (Unit {0}) (λ next. IsGrowth next) }
{
    let split = growth.split + 1;
    if split < growth.size {
        return Some(Growth {
            size: growth.size,
            split,
        });
    }
    if growth.size <= LEVEL_BUCKETS / 2 {
        return Some(Growth {
            size: 2 * growth.size,
            split: 0,
        });
    }
    None
}
