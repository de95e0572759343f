//! The views of a cut, who promised them, and what was done in them.
ghost use Rattle.frag_map.specs.Shape.{IsShape};

use crate::law::{Fault, Law};
use crate::moment::Moment;
use frag_map::{first_view, lost_group};
use indexmap::IndexMap;
use sig_core::{HostLog, LogStep, Mark, Member, Shape, View};
use std::alloc::Global;

/// How many hosts a node has.
const PARTS: u32 = 3;

/// The number of the view that a life begins with.
pub const FIRST_VIEW: u64 = 1;

/// A host's promise of a view.
#[derive(Clone, Copy)]
struct Promise {
    host: u32,
    number: u64,
    stamp: u64,
}

/// What a cut tells of views.
#[derive(Drop)]
pub struct Views {
    /// By their numbers; without the first one.
    installed: IndexMap<u64, View>,
    /// The least stamp of a step that installed the view of a number.
    first: IndexMap<u64, u64>,
    /// The views in headers of signals that were taken, by their numbers.
    headers: IndexMap<u64, View>,
    promises: Vec<Promise>,
    /// When transactions were decided, and rows applied.
    deeds: Vec<Moment>,
}

impl Views {
    /// None but the first.
    pub fn new(alloc: Global) -> Views {
        Views {
            installed: IndexMap::new(alloc),
            first: IndexMap::new(alloc),
            headers: IndexMap::new(alloc),
            promises: Vec::new(alloc),
            deeds: Vec::new(alloc),
        }
    }

    /// The views that a step of this log installs at its host, which had the view of this number. Gives
    /// the number of the last of them.
    ///
    /// # Errors
    /// `ViewsGrow`, `OneViewANumber` or `HostsAreOfTheirViews`, where it is broken, or `NoMemory`.
    pub fn install(&mut self, log: &HostLog, before: u64, step: &LogStep) -> Result<u64, Fault> {
        let mut number = before;
        for mark in step.marks.as_slice() {
            if let Mark::Installed { view } = mark {
                number = self.stand(log, number, step.stamp, view.get())?;
            }
        }
        Ok(number)
    }

    // A host stands in a view from now on.
    fn stand(&mut self, log: &HostLog, before: u64, stamp: u64, view: &View) -> Result<u64, Fault> {
        if may_stand(log, view) {
            self.add_view(before, stamp, view)
        } else {
            Err(Fault::Broken(Law::HostsAreOfTheirViews))
        }
    }

    fn add_view(&mut self, before: u64, stamp: u64, view: &View) -> Result<u64, Fault> {
        if view.number <= before {
            return Err(Fault::Broken(Law::ViewsGrow));
        }
        if self.has_other(view) {
            return Err(Fault::Broken(Law::OneViewANumber));
        }
        self.put_view(stamp, view)?;
        Ok(view.number)
    }

    fn put_view(&mut self, stamp: u64, view: &View) -> Result<(), Fault> {
        self.installed.insert(view.number, *view)?;
        let first = self.first_of(view.number).min(stamp);
        self.first.insert(view.number, first)?;
        Ok(())
    }

    /// The view in the header of a signal that was taken. Where another header has another view of the
    /// number, one of them wasn't installed.
    ///
    /// # Errors
    /// `HeadersAreInstalled`, where it is broken, or `NoMemory`.
    pub fn add_header(&mut self, view: &View) -> Result<(), Fault> {
        match self.headers.get(&view.number) {
            Some(other) if is_same(other, view) => return Ok(()),
            Some(_) => return Err(Fault::Broken(Law::HeadersAreInstalled)),
            None => {}
        }
        self.headers.insert(view.number, *view)?;
        Ok(())
    }

    // The least stamp so far of a step that installed the view of this number.
    fn first_of(&self, number: u64) -> u64 {
        self.first.get(&number).copied().unwrap_or(u64::MAX)
    }

    // Whether there is another view of that number.
    fn has_other(&self, view: &View) -> bool {
        match self.installed.get(&view.number) {
            Some(other) => !is_same(other, view),
            None => false,
        }
    }

    /// A mark of a step.
    ///
    /// # Errors
    /// `NoMemory`.
    pub fn add_mark(&mut self, moment: &Moment, mark: &Mark) -> Result<(), Fault> {
        match mark {
            Mark::Promised { number } => self.promises.push(Promise {
                host: moment.host,
                number: *number,
                stamp: moment.stamp,
            })?,
            Mark::Decided { tx: _, epoch: _ } => self.deeds.push(*moment)?,
            Mark::Applied { tx: _, key: _ } => self.deeds.push(*moment)?,
            _ => {}
        }
        Ok(())
    }

    /// Whether the node is a full member of the greatest view that a host has installed.
    pub fn is_live(&self, node: u32) -> bool {
        match self.installed.get(&self.greatest()) {
            Some(view) => is_among(node, view.full.as_slice()),
            None => true,
        }
    }

    // The number of the greatest view that a host has installed.
    fn greatest(&self) -> u64 {
        let mut greatest = FIRST_VIEW;
        for at in 0..self.installed.len() {
            if let Some((number, _)) = self.installed.get_index(at) {
                greatest = greatest.max(*number);
            }
        }
        greatest
    }

    // Whether a host of the node's main part promised the view of this number, before any installed it.
    fn is_promised(&self, node: u8, number: u64) -> bool {
        for promise in self.promises.as_slice() {
            if promise.number == number
                && promise.stamp < self.first_of(number)
                && node_of(promise.host) == u32::from(node)
            {
                return true;
            }
        }
        false
    }

    fn are_promised(&self, members: &[Member], number: u64) -> bool {
        for member in members {
            if !self.is_promised(member.node, number) {
                return false;
            }
        }
        true
    }

    // Whether the node of a host promised a view above that of a moment, before it.
    fn is_fenced(&self, moment: &Moment) -> bool {
        for promise in self.promises.as_slice() {
            if moment.view < promise.number
                && promise.stamp < moment.stamp
                && node_of(promise.host) == node_of(moment.host)
            {
                return true;
            }
        }
        false
    }

    // Whether a host stood in a view: all of them in the first one, and in others where one installed it.
    fn is_installed(&self, first: &View, view: &View) -> bool {
        if view.number == FIRST_VIEW {
            return is_same(first, view);
        }
        match self.installed.get(&view.number) {
            Some(other) => is_same(other, view),
            None => false,
        }
    }

    fn are_installed(&self, first: &View) -> bool {
        for at in 0..self.headers.len() {
            if let Some((_, view)) = self.headers.get_index(at)
                && !self.is_installed(first, view)
            {
                return false;
            }
        }
        true
    }

    // Whether a view is a part of the installed ones with lesser numbers.
    fn is_part_of_all(&self, view: &View) -> bool {
        for at in 0..self.installed.len() {
            if let Some((_, before)) = self.installed.get_index(at)
                && before.number < view.number
                && !is_part(before, view)
            {
                return false;
            }
        }
        true
    }

    fn judge_view(&self, shape: &Shape, number: u64, view: &View) -> Result<(), Fault>
        requires { IsShape shape.now }
    {
        if !is_part(&first_view(shape.nodes), view) || !self.is_part_of_all(view) {
            return Err(Fault::Broken(Law::ViewsShrink));
        }
        if lost_group(view, shape).is_some() {
            return Err(Fault::Broken(Law::ViewsAreViable));
        }
        if !self.are_promised(view.full.as_slice(), number)
            || !self.are_promised(view.starting.as_slice(), number)
        {
            return Err(Fault::Broken(Law::ViewsArePromised));
        }
        Ok(())
    }
}

/// Judges the views of a cut: each is a part of those before it, has a full member in each group and was
/// promised by all its members before it was installed. The view of each header is installed, and nobody
/// decides or applies anything in a lesser view than its node promised.
///
/// # Errors
/// The first of these laws that is broken.
pub fn judge_views(views: &Views, shape: &Shape) -> Result<(), Fault>
    requires { IsShape shape.now }
{
    for at in 0..views.installed.len() {
        if let Some((number, view)) = views.installed.get_index(at) {
            views.judge_view(shape, *number, view)?;
        }
    }
    if !views.are_installed(&first_view(shape.nodes)) {
        return Err(Fault::Broken(Law::HeadersAreInstalled));
    }
    for moment in views.deeds.as_slice() {
        if views.is_fenced(moment) {
            return Err(Fault::Broken(Law::PromisesAreKept));
        }
    }
    Ok(())
}

/// The node of a host, 0 for the shell's.
pub fn node_of(host: u32) -> u32 {
    if host == 0 { 0 } else { (host - 1) / PARTS + 1 }
}

fn is_among(node: u32, members: &[Member]) -> bool {
    for member in members {
        if u32::from(member.node) == node {
            return true;
        }
    }
    false
}

// Whether two views have the same members.
fn is_same(one: &View, other: &View) -> bool {
    one.full.as_slice() == other.full.as_slice()
        && one.starting.as_slice() == other.starting.as_slice()
}

// Whether a host may stand in a view, which has its member. The shell's has none, and one that was made
// later may not have joined.
fn may_stand(log: &HostLog, view: &View) -> bool {
    let node = node_of(log.host.0);
    node == 0
        || log.made > 0
        || is_among(node, view.full.as_slice())
        || is_among(node, view.starting.as_slice())
}

// Whether a view is a part of another one: nobody joins.
fn is_part(before: &View, view: &View) -> bool {
    are_in(view.full.as_slice(), before.full.as_slice())
        && are_in(view.starting.as_slice(), before.starting.as_slice())
}

fn are_in(some: &[Member], members: &[Member]) -> bool {
    for member in some {
        if !is_in(member, members) {
            return false;
        }
    }
    true
}

fn is_in(one: &Member, members: &[Member]) -> bool {
    for member in members {
        if member.node == one.node && member.start == one.start {
            return true;
        }
    }
    false
}
