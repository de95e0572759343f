//! What signals say.
ghost use Rattle.trace_read.specs.Reading.{GivesOrWants};
ghost use Rattle.trace_bytes.specs.Bodies.{body_at, body_of, of_a_client, of_membership, of_disks, of_the_rest};

use crate::input::Input;
use crate::read::backup_signals::{backed_up_of, backup_of};
use crate::read::chain_signals::{committing_of, preparing_of};
use crate::read::checkpoint_signals::checkpoint_of;
use crate::read::client_signals::{asking_of, ending_of, failing_of, opening_of};
use crate::read::copying_signals::{copying_of, own_rows_of};
use crate::read::epoch_signals::{closing_of, deciding_of, micro_of, saving_of};
use crate::read::file_signals::file_of;
use crate::read::host_signals::host_signal_of;
use crate::read::joining_signals::{draining_of, joined_of, starting_of};
use crate::read::membership_signals::{granting_of, promising_of};
use crate::read::subscription_signals::subscription_of;
use crate::read::takeover_signals::takeover_of;
use crate::read::unique_signals::unique_of;
use crate::stop::Stop;
use sig_core::Body;
use std::alloc::Global;

/// What a signal says.
///
/// # Errors
/// Where a byte doesn't fit, and want of memory.
#[tactic(auto, unfolding(trace_bytes::specs::Bodies::body_at), using(crate::proofs::Stops::stops))]
pub fn read_body(alloc: Global, input: &mut Input<'_>) -> Result<Body, Stop>
    ensures { GivesOrWants result input.new (body_at input.old) }
{
    let number = input.byte(0, 120)?;
    body_of(alloc, input, number)
}

#[tactic(auto, unfolding(trace_bytes::specs::Bodies::body_of))]
fn body_of(alloc: Global, input: &mut Input<'_>, number: u8) -> Result<Body, Stop>
    ensures { GivesOrWants result input.new (body_of number input.old) }
{
    if number < 34 {
        of_a_client(alloc, input, number)
    } else if number < 68 {
        of_membership(alloc, input, number)
    } else if number < 91 {
        of_disks(alloc, input, number)
    } else {
        of_the_rest(alloc, input, number)
    }
}

#[tactic(auto, unfolding(trace_bytes::specs::Bodies::of_a_client))]
fn of_a_client(alloc: Global, input: &mut Input<'_>, number: u8) -> Result<Body, Stop>
    ensures { GivesOrWants result input.new (of_a_client number input.old) }
{
    if number < 5 {
        host_signal_of(alloc, input, number)
    } else if number < 10 {
        opening_of(alloc, input, number)
    } else if number < 15 {
        ending_of(input, number)
    } else if number < 19 {
        failing_of(input, number)
    } else if number < 25 {
        asking_of(alloc, input, number)
    } else if number < 28 {
        preparing_of(alloc, input, number)
    } else {
        committing_of(input, number)
    }
}

#[tactic(auto, unfolding(trace_bytes::specs::Bodies::of_membership))]
fn of_membership(alloc: Global, input: &mut Input<'_>, number: u8) -> Result<Body, Stop>
    ensures { GivesOrWants result input.new (of_membership number input.old) }
{
    if number < 41 {
        promising_of(alloc, input, number)
    } else if number < 46 {
        granting_of(input, number)
    } else if number < 51 {
        takeover_of(input, number)
    } else if number < 55 {
        deciding_of(alloc, input, number)
    } else if number < 61 {
        closing_of(input, number)
    } else {
        saving_of(input, number)
    }
}

#[tactic(auto, unfolding(trace_bytes::specs::Bodies::of_disks))]
fn of_disks(alloc: Global, input: &mut Input<'_>, number: u8) -> Result<Body, Stop>
    ensures { GivesOrWants result input.new (of_disks number input.old) }
{
    if number < 74 {
        checkpoint_of(input, number)
    } else if number < 77 {
        file_of(alloc, input, number)
    } else if number < 81 {
        starting_of(input, number)
    } else if number < 88 {
        copying_of(alloc, input, number)
    } else {
        draining_of(input, number)
    }
}

#[tactic(auto, unfolding(trace_bytes::specs::Bodies::of_the_rest))]
fn of_the_rest(alloc: Global, input: &mut Input<'_>, number: u8) -> Result<Body, Stop>
    ensures { GivesOrWants result input.new (of_the_rest number input.old) }
{
    if number < 96 {
        joined_of(input, number)
    } else if number < 100 {
        micro_of(input, number)
    } else if number < 103 {
        own_rows_of(input, number)
    } else if number < 109 {
        subscription_of(alloc, input, number)
    } else if number < 115 {
        backup_of(alloc, input, number)
    } else if number < 119 {
        backed_up_of(input, number)
    } else {
        unique_of(alloc, input, number)
    }
}
