//! Traces with a step more, a step less, or another one.
use super::places::StepPlace;
use sig_core::NoMemory;
use std::alloc::Global;

// A mark, as bytes: the node promised view 1.
const PROMISE: [u8; 9] = [5, 0, 0, 0, 0, 0, 0, 0, 1];

// The bytes between two places; none where there are none.
fn part(bytes: &[u8], from: usize, to: usize) -> &[u8] {
    let to = to.min(bytes.len());
    if from < to { &bytes[from..to] } else { &[] }
}

// The number in the last two bytes of a number of eight goes up, or down.
fn count(edited: &mut Vec<u8>, at: usize, up: bool) {
    let (high, low) = (at.saturating_add(6), at.saturating_add(7));
    if low < edited.len() && high < edited.len() {
        if up {
            if edited[low] == u8::MAX {
                edited[high] = edited[high].wrapping_add(1);
            }
            edited[low] = edited[low].wrapping_add(1);
        } else {
            if edited[low] == 0 {
                edited[high] = edited[high].wrapping_sub(1);
            }
            edited[low] = edited[low].wrapping_sub(1);
        }
    }
}

/// A step is left out.
///
/// # Errors
/// `NoMemory`, as of all that follow.
pub fn left_out(alloc: Global, bytes: &[u8], step: &StepPlace) -> Result<Vec<u8>, NoMemory> {
    let mut edited = Vec::new(alloc);
    edited.extend_from_slice(part(bytes, 0, step.from))?;
    edited.extend_from_slice(part(bytes, step.to, bytes.len()))?;
    count(&mut edited, step.count_at, false);
    Ok(edited)
}

/// A step stands there twice.
pub fn doubled(alloc: Global, bytes: &[u8], step: &StepPlace) -> Result<Vec<u8>, NoMemory> {
    let mut edited = Vec::new(alloc);
    edited.extend_from_slice(part(bytes, 0, step.to))?;
    edited.extend_from_slice(part(bytes, step.from, bytes.len()))?;
    count(&mut edited, step.count_at, true);
    Ok(edited)
}

/// A step stands in front of another one, of a later log.
pub fn moved(
    alloc: Global,
    bytes: &[u8],
    step: &StepPlace,
    before: &StepPlace,
) -> Result<Vec<u8>, NoMemory> {
    let mut edited = Vec::new(alloc);
    edited.extend_from_slice(part(bytes, 0, step.from))?;
    edited.extend_from_slice(part(bytes, step.to, before.from))?;
    edited.extend_from_slice(part(bytes, step.from, step.to))?;
    edited.extend_from_slice(part(bytes, before.from, bytes.len()))?;
    count(&mut edited, step.count_at, false);
    let len = step.to.saturating_sub(step.from);
    count(&mut edited, before.count_at.saturating_sub(len), true);
    Ok(edited)
}

/// Other bits of a byte.
pub fn changed(alloc: Global, bytes: &[u8], at: usize, flip: u8) -> Result<Vec<u8>, NoMemory> {
    let mut edited = Vec::new(alloc);
    edited.extend_from_slice(bytes)?;
    if at < edited.len() {
        edited[at] = edited[at] ^ flip;
    }
    Ok(edited)
}

/// A step that has no mark, with one.
pub fn marked(alloc: Global, bytes: &[u8], step: &StepPlace) -> Result<Vec<u8>, NoMemory> {
    let mut edited = Vec::new(alloc);
    edited.extend_from_slice(part(bytes, 0, step.to))?;
    edited.extend_from_slice(&PROMISE)?;
    edited.extend_from_slice(part(bytes, step.to, bytes.len()))?;
    count(&mut edited, step.to.saturating_sub(8), true);
    Ok(edited)
}
