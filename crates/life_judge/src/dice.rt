//! Draws.
ghost use Rattle.std.specs.Prelude.{◌<◌};

/// Draws that a seed determines: a linear congruence of 64 bits, with the factors of Knuth's MMIX, of
/// which the upper bits are used.
#[derive(Drop)]
pub struct Dice {
    state: u64,
}

impl Dice {
    /// The draws of a seed. The first few hang together in near seeds, and are left out.
    pub fn new(seed: u64) -> Dice {
        let mut dice = Dice { state: seed };
        for _ in 0..5u32 {
            dice.roll(2);
        }
        dice
    }

    /// A number below `sides`.
    pub fn roll(&mut self, sides: u64) -> u64
        requires { 0 < sides }
        ensures { result < sides }
    {
        self.state = self
            .state
            .wrapping_mul(6364136223846793005)
            .wrapping_add(1442695040888963407);
        (self.state >> 33) % sides
    }
}
