//! Closed cuts of a life: a part of it that could have been the whole.
ghost use Rattle.std.specs.Prelude.{◌<◌};

use crate::dice::Dice;
use sig_core::{HostLog, Life, NoMemory};
use std::alloc::Global;

/// A part of a life: of each host the steps up to a stamp. It is closed where each signal that is taken
/// in it was sent in it.
#[derive(Drop)]
pub struct Cut {
    /// The stamps, in the order of hosts.
    ends: Vec<u64>,
}

impl Cut {
    /// All of a life.
    ///
    /// # Errors
    /// `NoMemory`.
    pub fn whole(alloc: Global, life: &Life) -> Result<Cut, NoMemory> {
        Cut::up_to(alloc, life, u64::MAX)
    }

    // Of each host the steps up to this stamp.
    fn up_to(alloc: Global, life: &Life, stamp: u64) -> Result<Cut, NoMemory> {
        let ends = Vec::from_elem(alloc, stamp, life.logs.len())?;
        Ok(Cut { ends })
    }

    /// Whether a host's step of this stamp is in it.
    pub fn has(&self, host: u32, stamp: u64) -> bool {
        match self.ends.get(host as usize) {
            Some(end) => stamp <= *end,
            None => false,
        }
    }

    /// A closed cut inside this one, which is closed: all that comes before some step of it, with that
    /// step, or all that doesn't come behind it, without it. This one once more, where the host that is
    /// drawn has no step in it.
    ///
    /// # Errors
    /// `NoMemory`.
    pub fn smaller(&self, alloc: Global, dice: &mut Dice, life: &Life) -> Result<Cut, NoMemory> {
        let Some((host, stamp)) = self.draw(dice, life) else {
            return self.copied(alloc);
        };
        if dice.roll(2) == 0 {
            Cut::before(alloc, life, host, stamp)
        } else {
            self.without(alloc, life, host, stamp)
        }
    }

    fn copied(&self, alloc: Global) -> Result<Cut, NoMemory> {
        let ends = Vec::from_slice(alloc, self.ends.as_slice())?;
        Ok(Cut { ends })
    }

    // A step in it, by its host and its stamp.
    fn draw(&self, dice: &mut Dice, life: &Life) -> Option<(u32, u64)> {
        let logs = life.logs.as_slice();
        if logs.is_empty() {
            return None;
        }
        let log = &logs[dice.roll(logs.len() as u64) as usize];
        let stamp = self.draw_step(dice, log)?;
        Some((log.host.0, stamp))
    }

    // The stamp of a step of the host in it.
    fn draw_step(&self, dice: &mut Dice, log: &HostLog) -> Option<u64> {
        let count = self.count(log);
        if count == 0 {
            return None;
        }
        let at = dice.roll(count) as usize;
        match log.steps.as_slice().get(at) {
            Some(step) => Some(step.stamp),
            None => None,
        }
    }

    // How many steps of the host are in it.
    fn count(&self, log: &HostLog) -> u64 {
        let mut count = 0u64;
        for step in log.steps.as_slice() {
            if !self.has(log.host.0, step.stamp) {
                return count;
            }
            count = count.saturating_add(1);
        }
        count
    }

    // The least closed cut with a host's step of this stamp.
    fn before(alloc: Global, life: &Life, host: u32, stamp: u64) -> Result<Cut, NoMemory> {
        let mut cut = Cut::up_to(alloc, life, 0)?;
        cut.set(host, stamp);
        for _ in 0..u64::MAX {
            if !cut.grow(life) {
                return Ok(cut);
            }
        }
        Ok(cut)
    }

    // The greatest closed cut inside this one without that step.
    fn without(&self, alloc: Global, life: &Life, host: u32, stamp: u64) -> Result<Cut, NoMemory> {
        let mut cut = self.copied(alloc)?;
        cut.set(host, stamp.saturating_sub(1));
        for _ in 0..u64::MAX {
            if !cut.shrink(life) {
                return Ok(cut);
            }
        }
        Ok(cut)
    }

    fn set(&mut self, host: u32, stamp: u64) {
        if let Some(end) = self.ends.get_mut(host as usize) {
            *end = stamp;
        }
    }

    // Takes in the steps that sent what is taken in it. Says whether there was one that it hadn't.
    fn grow(&mut self, life: &Life) -> bool {
        let mut grows = false;
        for log in life.logs.as_slice() {
            if self.grow_by(log) {
                grows = true;
            }
        }
        grows
    }

    fn grow_by(&mut self, log: &HostLog) -> bool {
        let mut grows = false;
        for step in log.steps.as_slice() {
            if !self.has(log.host.0, step.stamp) {
                return grows;
            }
            let taken = step.taken.get();
            if !self.has(taken.from.0, taken.stamp) {
                self.set(taken.from.0, taken.stamp);
                grows = true;
            }
        }
        grows
    }

    // Leaves out the steps that take what wasn't sent in it. Says whether there was one.
    fn shrink(&mut self, life: &Life) -> bool {
        let mut shrinks = false;
        for log in life.logs.as_slice() {
            if let Some(stamp) = self.first_open(log) {
                self.set(log.host.0, stamp.saturating_sub(1));
                shrinks = true;
            }
        }
        shrinks
    }

    // The stamp of the first step of the host in it that takes what wasn't sent in it.
    fn first_open(&self, log: &HostLog) -> Option<u64> {
        for step in log.steps.as_slice() {
            if !self.has(log.host.0, step.stamp) {
                return None;
            }
            let taken = step.taken.get();
            if !self.has(taken.from.0, taken.stamp) {
                return Some(step.stamp);
            }
        }
        None
    }
}
