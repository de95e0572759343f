//! All judgements of a life.
ghost use Rattle.frag_map.specs.Shape.{IsShape};

use crate::cut::Cut;
use crate::dice::Dice;
use crate::epochs::judge_epochs;
use crate::facts::{Facts, facts_of};
use crate::growth::judge_growth;
use crate::history::history_of;
use crate::law::{Fault, Law};
use crate::logs::judge_logs;
use crate::order::judge_order;
use crate::owed::judge_owed;
use crate::records::judge_records;
use crate::reports::{judge_entries, judge_reports};
use crate::rows::{NodeRows, judge_rows};
use crate::views::judge_views;
use serial_model::{ReplayFault, replay};
use sig_core::{Entry, Key, Life, Shape, Table, Value};
use std::alloc::Global;

/// How many cuts of a life are judged besides the whole.
const CUTS: u32 = 4;

// A cut that was judged, and its history.
#[derive(Drop)]
struct Judged {
    cut: Cut,
    history: Vec<Entry>,
}

/// Judges a life, with the rows that its nodes told of at its end, and some closed cuts of it, each
/// inside the one before. At a life that rests, no request may be left.
///
/// # Errors
/// The first law that is broken, or `NoMemory`.
pub fn judge(
    alloc: Global,
    dice: &mut Dice,
    life: &Life,
    shape: &Shape,
    nodes: &[NodeRows],
    keys: &[Key],
    rests: bool,
) -> Result<(), Fault>
    requires shape { IsShape shape.now }
{
    judge_logs(life)?;
    let whole = judge_whole(alloc, life, shape, nodes, keys, rests)?;
    let history = whole.history.as_slice();
    let mut inner = judge_inside(alloc, dice, life, shape, &whole, history)?;
    for _ in 1..CUTS {
        inner = judge_inside(alloc, dice, life, shape, &inner, history)?;
    }
    Ok(())
}

// Judges a life without its cuts.
fn judge_whole(
    alloc: Global,
    life: &Life,
    shape: &Shape,
    nodes: &[NodeRows],
    keys: &[Key],
    rests: bool,
) -> Result<Judged, Fault>
    requires shape { IsShape shape.now }
{
    let cut = Cut::whole(alloc, life)?;
    let history = whole_history(alloc, life, shape, &cut, nodes, keys, rests)?;
    Ok(Judged { cut, history })
}

// Judges the cut that is all of a life, and gives its history.
fn whole_history(
    alloc: Global,
    life: &Life,
    shape: &Shape,
    cut: &Cut,
    nodes: &[NodeRows],
    keys: &[Key],
    rests: bool,
) -> Result<Vec<Entry>, Fault>
    requires shape { IsShape shape.now }
{
    let facts = facts_of(alloc, life, cut)?;
    judge_all(alloc, life, shape, &facts, nodes, keys, rests)
}

// Judges what it tells.
fn judge_all(
    alloc: Global,
    life: &Life,
    shape: &Shape,
    facts: &Facts,
    nodes: &[NodeRows],
    keys: &[Key],
    rests: bool,
) -> Result<Vec<Entry>, Fault>
    requires shape { IsShape shape.now }
{
    let start = life.start_rows.as_slice();
    let history = judge_cut(alloc, shape, facts, start)?;
    let table = table_of(alloc, start, history.as_slice())?;
    judge_rows(facts, shape, &table, nodes, keys)?;
    judge_end(life, facts, history.as_slice(), rests)?;
    Ok(history)
}

// Judges what is left at the end.
fn judge_end(life: &Life, facts: &Facts, history: &[Entry], rests: bool) -> Result<(), Fault> {
    if rests {
        judge_owed(life, facts)?;
    }
    judge_records(facts, history)
}

// Judges a cut inside another one, in a life with this history.
fn judge_inside(
    alloc: Global,
    dice: &mut Dice,
    life: &Life,
    shape: &Shape,
    outer: &Judged,
    whole_history: &[Entry],
) -> Result<Judged, Fault>
    requires shape { IsShape shape.now }
{
    let cut = outer.cut.smaller(alloc, dice, life)?;
    let later = outer.history.as_slice();
    let history = part_history(alloc, life, shape, &cut, later, whole_history)?;
    Ok(Judged { cut, history })
}

// Judges a cut inside a later one with this history, in a life with that history. Gives its own.
fn part_history(
    alloc: Global,
    life: &Life,
    shape: &Shape,
    cut: &Cut,
    later: &[Entry],
    whole_history: &[Entry],
) -> Result<Vec<Entry>, Fault>
    requires shape { IsShape shape.now }
{
    let facts = facts_of(alloc, life, cut)?;
    let start = life.start_rows.as_slice();
    judge_part(alloc, shape, &facts, start, later, whole_history)
}

// Judges what such a cut tells.
fn judge_part(
    alloc: Global,
    shape: &Shape,
    facts: &Facts,
    start: &[(Key, Value)],
    later: &[Entry],
    whole_history: &[Entry],
) -> Result<Vec<Entry>, Fault>
    requires shape { IsShape shape.now }
{
    let history = judge_cut(alloc, shape, facts, start)?;
    judge_growth(&facts.epochs, history.as_slice(), later)?;
    judge_records(facts, whole_history)?;
    Ok(history)
}

// Judges what a cut tells by itself, in a life that began with these rows, and gives its history.
fn judge_cut(
    alloc: Global,
    shape: &Shape,
    facts: &Facts,
    start: &[(Key, Value)],
) -> Result<Vec<Entry>, Fault>
    requires shape { IsShape shape.now }
{
    judge_facts(shape, facts)?;
    let history = history_of(alloc, facts)?;
    judge_history(alloc, facts, start, history.as_slice())?;
    Ok(history)
}

fn judge_facts(shape: &Shape, facts: &Facts) -> Result<(), Fault>
    requires shape { IsShape shape.now }
{
    judge_views(&facts.views, shape)?;
    judge_reports(facts)
}

fn judge_history(
    alloc: Global,
    facts: &Facts,
    start: &[(Key, Value)],
    history: &[Entry],
) -> Result<(), Fault> {
    judge_order(&facts.client, history)?;
    judge_entries(&facts.client, history)?;
    judge_epochs(&facts.epochs, &facts.decisions, history)?;
    judge_legal(alloc, start, history)
}

fn judge_legal(alloc: Global, start: &[(Key, Value)], history: &[Entry]) -> Result<(), Fault> {
    table_of(alloc, start, history)?;
    Ok(())
}

/// The rows that a history leads to, in a life that began with these.
///
/// # Errors
/// `Legal`, where it is broken, or `NoMemory`.
pub fn table_of(alloc: Global, start: &[(Key, Value)], history: &[Entry]) -> Result<Table, Fault> {
    match replay(alloc, start, history) {
        Ok(table) => Ok(table),
        Err(ReplayFault::NoMemory) => Err(Fault::NoMemory),
        Err(_) => Err(Fault::Broken(Law::Legal)),
    }
}
