//! The rule of locks as a plain program: for each key a list of holders and a list of waiters, and
//! each call in the words of the rule. It uses no function of `row_locks`.
use row_locks::Mode;
use sig_core::TxId;
use std::alloc::{AllocError, Global};

/// The lock of one key.
#[derive(Drop)]
pub struct PlainLock {
    holders: Vec<(TxId, Mode)>,
    /// With the rounds that each has stood.
    waiters: Vec<(TxId, Mode, u8)>,
}

impl PlainLock {
    pub fn new(alloc: Global) -> PlainLock {
        PlainLock {
            holders: Vec::new(alloc),
            waiters: Vec::new(alloc),
        }
    }

    pub fn holder_count(&self) -> usize {
        self.holders.len()
    }

    /// Holder `i`, from 0.
    pub fn holder(&self, i: usize) -> Option<TxId> {
        match self.holders.get(i) {
            Some(holder) => Some(holder.0),
            None => None,
        }
    }

    /// Whom a waiter waits for: the first holder that isn't it. Where there is none, a waiter with
    /// eight rounds stands first, and the waiter itself is named.
    pub fn ahead(&self, tx: TxId) -> Option<TxId> {
        if !self.is_waiting(tx) {
            return None;
        }
        for holder in &self.holders {
            if holder.0 != tx {
                return Some(holder.0);
            }
        }
        Some(tx)
    }

    /// The first waiter with eight rounds.
    pub fn expired(&self) -> Option<TxId> {
        for waiter in &self.waiters {
            if waiter.2 == 8 {
                return Some(waiter.0);
            }
        }
        None
    }

    /// Whether the request is granted at once.
    pub fn request(&mut self, tx: TxId, mode: Mode) -> Result<bool, AllocError> {
        let held = self.held(tx);
        if held == Some(Mode::Exclusive) || held == Some(mode) {
            return Ok(true);
        }
        if self.is_waiting(tx) {
            self.wait_for_stronger(tx, mode);
            return Ok(false);
        }
        if held.is_some() {
            self.raise(tx)
        } else {
            self.enter(tx, mode)
        }
    }

    // The only holder is raised at once; another's request to be raised stands first.
    fn raise(&mut self, tx: TxId) -> Result<bool, AllocError> {
        if self.holders.len() == 1 {
            self.holders.clear();
            self.holders.push((tx, Mode::Exclusive))?;
            return Ok(true);
        }
        self.waiters.insert(0, (tx, Mode::Exclusive, 0))?;
        Ok(false)
    }

    // Who holds nothing is granted the lock if it agrees with all holders and nobody waits.
    fn enter(&mut self, tx: TxId, mode: Mode) -> Result<bool, AllocError> {
        if self.agrees(tx, mode) && self.waiters.is_empty() {
            self.holders.push((tx, mode))?;
            return Ok(true);
        }
        self.waiters.push((tx, mode, 0))?;
        Ok(false)
    }

    /// Takes the transaction out of both lists, and answers how many were granted.
    pub fn release(&mut self, tx: TxId) -> Result<usize, AllocError> {
        self.holders.retain(|holder| holder.0 != tx);
        self.unwait(tx)
    }

    /// Takes the transaction out of the waiters, and answers how many were granted.
    pub fn unwait(&mut self, tx: TxId) -> Result<usize, AllocError> {
        self.waiters.retain(|waiter| waiter.0 != tx);
        self.serve()
    }

    pub fn unwait_all(&mut self) {
        self.waiters.clear();
    }

    pub fn age_round(&mut self) {
        for waiter in &mut self.waiters {
            if waiter.0.tc != 0 && waiter.2 < 8 {
                waiter.2 += 1;
            }
        }
    }

    // While the first waiter has fewer than eight rounds and agrees with all other holders it
    // becomes the last holder.
    fn serve(&mut self) -> Result<usize, AllocError> {
        let most = self.waiters.len();
        for granted in 0..most {
            if self.waiters.is_empty() {
                return Ok(granted);
            }
            let (tx, mode, rounds) = self.waiters[0];
            if rounds == 8 || !self.agrees(tx, mode) {
                return Ok(granted);
            }
            self.waiters.remove(0);
            self.holders.retain(|holder| holder.0 != tx);
            self.holders.push((tx, mode))?;
        }
        Ok(most)
    }

    // The mode in which the transaction holds the lock.
    fn held(&self, tx: TxId) -> Option<Mode> {
        for holder in &self.holders {
            if holder.0 == tx {
                return Some(holder.1);
            }
        }
        None
    }

    fn is_waiting(&self, tx: TxId) -> bool {
        self.waiters.iter().any(|waiter| waiter.0 == tx)
    }

    // Exclusive is the stronger.
    fn wait_for_stronger(&mut self, tx: TxId, mode: Mode) {
        for waiter in &mut self.waiters {
            if waiter.0 == tx && mode == Mode::Exclusive {
                waiter.1 = Mode::Exclusive;
            }
        }
    }

    // Shared agrees with shared, and nothing else with anything.
    fn agrees(&self, tx: TxId, mode: Mode) -> bool {
        for holder in &self.holders {
            let both_shared = holder.1 == Mode::Shared && mode == Mode::Shared;
            if holder.0 != tx && !both_shared {
                return false;
            }
        }
        true
    }
}
