//! The words of the program.

use std::alloc::{AllocError, Global};

/// What a run is.
#[derive(Clone, Copy)]
pub enum Kind {
    Alone,
    Disks,
    Fuses,
    Table,
}

impl Kind {
    /// Its word.
    pub fn name(&self) -> &'static str {
        match self {
            Kind::Alone => "alone",
            Kind::Disks => "disks",
            Kind::Fuses => "fuses",
            Kind::Table => "table",
        }
    }
}

/// Runs of a kind, one for each seed, or of the table, one for each number.
#[derive(Clone, Copy)]
pub struct Runs {
    pub kind: Kind,
    pub first: u64,
    pub count: u64,
    /// At so many of a hundred requests failures begin; of the table, how far it is from a number to the next.
    pub fails: u64,
}

impl Runs {
    /// The seed or number of a run, from 0.
    pub fn seed(&self, at: u64) -> u64 {
        match self.kind {
            Kind::Table => self.first.saturating_add(at.saturating_mul(self.fails)),
            _ => self.first.wrapping_add(at),
        }
    }
}

/// The runs that these words ask for; none where a word isn't such.
///
/// # Errors
/// Want of memory.
pub fn all_runs(alloc: Global, words: &[String]) -> Result<Option<Vec<Runs>>, AllocError> {
    let mut all = Vec::new(alloc);
    for four in words.chunks(4) {
        let Some(runs) = runs_of(four) else {
            return Ok(None);
        };
        all.push(runs)?;
    }
    Ok(Some(all))
}

fn runs_of(words: &[String]) -> Option<Runs> {
    let [kind, first, count, fails] = words else {
        return None;
    };
    Some(Runs {
        kind: kind_of(kind.as_str())?,
        first: first.as_str().parse::<u64>().ok()?,
        count: count.as_str().parse::<u64>().ok()?,
        fails: fails.as_str().parse::<u64>().ok()?,
    })
}

fn kind_of(word: &str) -> Option<Kind> {
    match word {
        "alone" => Some(Kind::Alone),
        "disks" => Some(Kind::Disks),
        "fuses" => Some(Kind::Fuses),
        "table" => Some(Kind::Table),
        _ => None,
    }
}
