//! Forms of disks: empty ones, other shapes, old versions, nodes that aren't listed or have other rows than their group,
//! slots that were lost, disks that changed places, sizes at the limits; and first lives that were stopped.
use crate::restarts::groups::three_groups;
use crate::restarts::lost::{first_life_stopped, lost_system_slots};
use crate::restarts::numbers::the_greatest_numbers;
use crate::restarts::own::own_rows;
use crate::restarts::ring::redo_round_the_ring;
use crate::restarts::shapes::{another_shape, empty_disks};
use crate::restarts::slots::{
    a_group_without_a_slot, a_lost_slot, a_lost_system_slot, a_slot_lost_behind_a_checkpoint,
    an_unlisted_node, disks_that_disagree, other_rows, the_later_slots,
};
use crate::restarts::trouble::Trouble;
use crate::restarts::versions::{a_first_version, sizes_at_the_limits, the_longest_words};
use std::alloc::Global;

const FORMS: u64 = 20;

/// Tries all forms, and answers how many.
///
/// # Errors
/// What is wrong with one.
pub fn try_all(alloc: Global) -> Result<u64, Trouble> {
    for form in 0..FORMS {
        try_one(alloc, form)?;
    }
    Ok(FORMS)
}

fn try_one(alloc: Global, form: u64) -> Result<(), Trouble> {
    match form {
        0 => empty_disks(alloc),
        1 => another_shape(alloc),
        2 => a_first_version(alloc),
        3 => an_unlisted_node(alloc),
        4 => a_group_without_a_slot(alloc),
        5 => own_rows(alloc),
        6 => three_groups(alloc),
        7 => the_greatest_numbers(alloc),
        8 => sizes_at_the_limits(alloc),
        9 => the_later_slots(alloc, 0, 4_096),
        10 => the_later_slots(alloc, 4_096, 0),
        11 => disks_that_disagree(alloc),
        12 => redo_round_the_ring(alloc),
        13 => a_lost_slot(alloc),
        14 => lost_system_slots(alloc),
        15 => first_life_stopped(alloc),
        16 => a_lost_system_slot(alloc),
        17 => a_slot_lost_behind_a_checkpoint(alloc),
        18 => other_rows(alloc),
        _ => the_longest_words(alloc),
    }
}
