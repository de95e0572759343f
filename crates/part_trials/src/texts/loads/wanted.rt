//! What a line asks for.

/// What a line asks for.
#[derive(Clone, Copy)]
pub enum Wanted {
    /// The first `n` transactions of wave `w`.
    Wave { seed: u64, w: u32, n: u8 },
    /// A whole load.
    Load { transactions: u32, seed: u64 },
}

// The first word of a line, and what stands behind it.
fn cut_word(line: &str) -> (&str, &str) {
    match line.split_once(' ') {
        Some((first, rest)) => (first, rest),
        None => (line, ""),
    }
}

/// What a line asks for, if it is one that does.
pub fn parse(line: &str) -> Option<Wanted> {
    let (first, rest) = cut_word(line);
    match first {
        "wave" => wave_of(rest),
        "load" => load_of(rest),
        _ => None,
    }
}

fn wave_of(rest: &str) -> Option<Wanted> {
    let (seed, rest) = cut_word(rest);
    let (w, n) = cut_word(rest);
    let seed = seed.parse::<u64>().ok()?;
    let w = w.parse::<u32>().ok()?;
    let n = n.parse::<u8>().ok()?;
    Some(Wanted::Wave { seed, w, n })
}

/// The transactions that a load has at most: it asks for fewer than 10,000 waves and checkpoints.
const MOST_TRANSACTIONS: u32 = 100_000;

fn load_of(rest: &str) -> Option<Wanted> {
    let (transactions, seed) = cut_word(rest);
    let transactions = transactions.parse::<u32>().ok()?;
    let seed = seed.parse::<u64>().ok()?;
    if transactions > MOST_TRANSACTIONS {
        return None;
    }
    Some(Wanted::Load { transactions, seed })
}
