//! Numbers that follow from a seed, by a linear congruence with the constants of MMIX.
ghost use Rattle.std.specs.Prelude.{◌<◌};

/// Numbers that follow from a seed.
#[derive(Drop)]
pub struct Dice(u64);

impl Dice {
    /// Those of a seed.
    pub fn new(seed: u64) -> Dice {
        Dice(seed)
    }

    /// A number below `sides`.
    pub fn roll(&mut self, sides: u64) -> u64
        requires { 0 < sides }
        ensures { result < sides }
    {
        self.0 = self
            .0
            .wrapping_mul(6364136223846793005)
            .wrapping_add(1442695040888963407);
        (self.0 >> 33) % sides
    }

    /// A byte.
    pub fn byte(&mut self) -> u8 {
        self.roll(256) as u8
    }
}
