//! The decided transactions of a cut, with their operations.
use crate::law::{Fault, Law};
use crate::moment::Moment;
use indexmap::IndexMap;
use sig_core::{Answer, Body, EpochSignal, HeldAnswer, HeldOp, Mark, NoMemory, Op, Signal, TxId};
use std::alloc::Global;

/// When a transaction was decided, and its epoch.
#[derive(Clone, Copy)]
pub struct Decision {
    pub moment: Moment,
    pub epoch: u64,
}

/// What a cut tells of decisions.
#[derive(Drop)]
pub struct Decisions {
    pub decided: IndexMap<TxId, Decision>,
    /// The operations of a transaction, with their answers, as its epoch was asked for.
    verified: IndexMap<TxId, Vec<(Op, Answer)>>,
    /// The stamp of the first step that applied a row of it.
    applied: IndexMap<TxId, u64>,
}

impl Decisions {
    /// None yet.
    pub fn new(alloc: Global) -> Decisions {
        Decisions {
            decided: IndexMap::new(alloc),
            verified: IndexMap::new(alloc),
            applied: IndexMap::new(alloc),
        }
    }

    /// A signal that was taken.
    ///
    /// # Errors
    /// `NoMemory`.
    pub fn add_signal(&mut self, alloc: Global, signal: &Signal) -> Result<(), Fault> {
        if let Body::Epoch(EpochSignal::DiVerifyReq { tx, ops }) = &signal.body {
            let ops = told_of(alloc, ops.as_slice())?;
            self.verified.insert(*tx, ops)?;
        }
        Ok(())
    }

    /// A mark of a step.
    ///
    /// # Errors
    /// `DecidedOnce`, where it is broken, or `NoMemory`.
    pub fn add_mark(&mut self, moment: &Moment, mark: &Mark) -> Result<(), Fault> {
        match mark {
            Mark::Decided { tx, epoch } => self.decide(moment, tx, *epoch),
            Mark::Applied { tx, key: _ } => self.apply(moment.stamp, tx),
            _ => Ok(()),
        }
    }

    fn decide(&mut self, moment: &Moment, tx: &TxId, epoch: u64) -> Result<(), Fault> {
        if self.decided.contains_key(tx) {
            return Err(Fault::Broken(Law::DecidedOnce));
        }
        let decision = Decision {
            moment: *moment,
            epoch,
        };
        self.decided.insert(*tx, decision)?;
        Ok(())
    }

    fn apply(&mut self, stamp: u64, tx: &TxId) -> Result<(), Fault> {
        let first = match self.applied.get(tx) {
            Some(before) if *before < stamp => *before,
            _ => stamp,
        };
        self.applied.insert(*tx, first)?;
        Ok(())
    }

    /// The stamp of the first step that applied a row of the transaction.
    pub fn applied(&self, tx: &TxId) -> Option<u64> {
        self.applied.get(tx).copied()
    }

    /// The operations of the transaction, with their answers, as its epoch was asked for.
    pub fn ops_of(&self, tx: &TxId) -> Option<&Vec<(Op, Answer)>> {
        self.verified.get(tx)
    }

    /// Whether the transaction writes: one of its answers is `Done`.
    pub fn writes(&self, tx: &TxId) -> bool {
        match self.ops_of(tx) {
            Some(ops) => are_writing(ops.as_slice()),
            None => false,
        }
    }
}

/// Whether one of the answers is `Done`.
pub fn are_writing(ops: &[(Op, Answer)]) -> bool {
    for op in ops {
        if op.1 == Answer::Done {
            return true;
        }
    }
    false
}

fn told_of(alloc: Global, ops: &[(HeldOp, HeldAnswer)]) -> Result<Vec<(Op, Answer)>, NoMemory> {
    let mut told = Vec::new(alloc);
    for op in ops {
        told.push((*op.0.get(), op.1.get()))?;
    }
    Ok(told)
}
