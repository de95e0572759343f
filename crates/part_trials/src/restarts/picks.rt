//! What decides what a crash leaves.
use crate::dice::Dice;
use crate::restarts::trouble::Trouble;
use std::alloc::Global;

/// How many kinds of picks there are.
pub const KINDS: u64 = 12;

/// For so many places that aren't synced.
const PICKS: u64 = 400;

/// Picks of a kind: nothing is left, all, every other byte, open gates, open gates and all in turn, and at random.
pub fn picks_of(alloc: Global, kind: u64) -> Result<Vec<u8>, Trouble> {
    let mut dice = Dice::new(kind);
    let mut picks = Vec::new(alloc);
    for at in 0..PICKS {
        picks.push(pick_of(&mut dice, kind, at % 2 == 0))?;
    }
    Ok(picks)
}

fn pick_of(dice: &mut Dice, kind: u64, even: bool) -> u8 {
    match (kind, even) {
        (0, _) | (2, false) => 0,
        (1, _) | (2, true) | (4, false) => 255,
        (3, _) | (4, true) => 0x4e,
        _ => dice.byte(),
    }
}
