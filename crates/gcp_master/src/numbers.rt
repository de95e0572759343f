//! Numbers of epochs: c * 2^32 + m, where c counts the checkpoints and m the micro epochs since the
//! last one.
ghost use Rattle.std.specs.Prelude.{◌≡◌};
ghost use Rattle.gcp_master.specs.Numbers.{is_first, next_global, next_micro};

/// How many micro epochs a checkpoint number has at most, and how many checkpoint numbers there are.
pub const MICROS: u64 = 4_294_967_296;

/// Whether the epoch is the first of its checkpoint number, so that a global checkpoint ended the
/// one before.
pub fn is_first(epoch: u64) -> bool
    ensures { result ≡ is_first epoch }
{
    epoch % MICROS == 0
}

/// The epoch that follows this one where a micro closing ends it; none where the numbers are used
/// up.
pub fn next_micro(epoch: u64) -> Option<u64>
    ensures { result ≡ next_micro epoch }
{
    if epoch % MICROS + 1 < MICROS {
        Some(epoch + 1)
    } else {
        None
    }
}

/// The epoch that follows this one where a global checkpoint ends it; none where the numbers are
/// used up.
pub fn next_global(epoch: u64) -> Option<u64>
    ensures { result ≡ next_global epoch }
{
    if epoch / MICROS + 1 < MICROS {
        Some((epoch / MICROS + 1) * MICROS)
    } else {
        None
    }
}
