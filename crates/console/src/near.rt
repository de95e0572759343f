//! The command that somebody may have meant.
use crate::form::FORMS;
use std::alloc::{AllocError, Global};
use strsim::osa_distance;

/// Words for what commands do, and the commands.
const OTHERS: [(&str, &str); 44] = [
    ("fetch", "get"),
    ("read", "get"),
    ("select", "get"),
    ("lock", "getx"),
    ("set", "put"),
    ("write", "put"),
    ("store", "put"),
    ("replace", "put"),
    ("upsert", "put"),
    ("insert", "ins"),
    ("add", "ins"),
    ("create", "ins"),
    ("new", "ins"),
    ("update", "upd"),
    ("change", "upd"),
    ("delete", "del"),
    ("remove", "del"),
    ("rm", "del"),
    ("start", "begin"),
    ("transaction", "begin"),
    ("end", "commit"),
    ("rollback", "abort"),
    ("cancel", "abort"),
    ("wait", "tick"),
    ("sleep", "tick"),
    ("scan", "rows"),
    ("list", "rows"),
    ("ls", "rows"),
    ("dump", "rows"),
    ("hash", "digest"),
    ("exit", "quit"),
    ("bye", "quit"),
    ("q", "quit"),
    ("stop", "kill"),
    ("panic", "crash"),
    ("reboot", "restart"),
    ("recover", "restart"),
    ("resume", "restart"),
    ("partition", "cut"),
    ("split", "cut"),
    ("checkpoint", "lcp"),
    ("durable", "gcp"),
    ("status", "view"),
    ("nodes", "view"),
];

/// By how many letters too many, too few, wrong or exchanged a word and what was meant differ at most.
const EDITS: usize = 2;

/// The command whose word is nearest to one that is none, if one is near. Capitals count as small
/// letters.
///
/// # Errors
/// Want of memory.
pub fn nearest(alloc: Global, word: &str) -> Result<Option<&'static str>, AllocError> {
    let small = word.to_ascii_lowercase(alloc)?;
    nearest_small(alloc, &small)
}

fn nearest_small(alloc: Global, word: &str) -> Result<Option<&'static str>, AllocError> {
    for (other, command) in &OTHERS {
        if *other == word {
            return Ok(Some(*command));
        }
    }
    let mut best = None;
    let mut least = EDITS.min(word.len() / 2);
    for form in &FORMS {
        let edits = osa_distance(alloc, word, form.word())?;
        if edits <= least && (best.is_none() || edits < least) {
            least = edits;
            best = Some(form.word());
        }
    }
    Ok(best)
}
