//! What the client asked for and was told.
use crate::law::{Fault, Law};
use crate::moment::Moment;
use indexmap::IndexMap;
use sig_core::{
    Answer, ApiReq, Body, ClientSignal, HeldAnswer, HeldOp, HostSignal, Mark, Op, Outcome, Signal,
    TxId, Work,
};
use std::alloc::Global;

/// The name of a transaction, which has none where it is of an operation alone, and a stamp.
#[derive(Clone, Copy)]
struct Beginning {
    name: Option<u16>,
    stamp: u64,
}

/// What the client asked for, at the stamp of its step.
#[derive(Clone, Copy)]
struct Wish {
    stamp: u64,
    op: Op,
}

/// An operation that the client sent for a transaction.
#[derive(Clone, Copy)]
pub struct Asked {
    pub tx: TxId,
    pub op: Op,
    /// The stamp of the step that sent it.
    stamp: u64,
}

/// An answer that the client had of a transaction.
#[derive(Clone, Copy)]
pub struct Given {
    pub tx: TxId,
    pub answer: Answer,
}

/// The end of a transaction as it was reported, and the stamp of that.
#[derive(Clone, Copy)]
pub struct Report {
    pub outcome: Outcome,
    pub stamp: u64,
}

/// What a cut tells of the client.
#[derive(Drop)]
pub struct Client {
    /// The operations that the shell asked for.
    wishes: Vec<Wish>,
    /// What coordinators were asked to begin, with the stamps of the client's steps.
    begins: Vec<Beginning>,
    /// When the client was told that a transaction began.
    told: IndexMap<TxId, Beginning>,
    /// The operations that coordinators took, of each transaction in their order.
    pub asked: Vec<Asked>,
    /// The answers that the client took, likewise.
    pub given: Vec<Given>,
    /// The transactions that coordinators were asked to commit, or else to abort.
    pub ends: IndexMap<TxId, bool>,
    pub reported: IndexMap<TxId, Report>,
}

impl Client {
    /// Nothing yet.
    pub fn new(alloc: Global) -> Client {
        Client {
            wishes: Vec::new(alloc),
            begins: Vec::new(alloc),
            told: IndexMap::new(alloc),
            asked: Vec::new(alloc),
            given: Vec::new(alloc),
            ends: IndexMap::new(alloc),
            reported: IndexMap::new(alloc),
        }
    }

    /// A signal that was taken.
    ///
    /// # Errors
    /// `NoMemory`.
    pub fn add_signal(&mut self, moment: &Moment, signal: &Signal) -> Result<(), Fault> {
        match &signal.body {
            Body::Host(HostSignal::Continue { work, at: _ }) => self.add_work(moment, work),
            Body::Client(body) => self.add_body(moment, signal, body),
            _ => Ok(()),
        }
    }

    // A signal that the client took, or that it sent.
    fn add_body(
        &mut self,
        moment: &Moment,
        signal: &Signal,
        body: &ClientSignal,
    ) -> Result<(), Fault> {
        if moment.host == 0 {
            self.add_told(moment.stamp, body)
        } else if signal.from.0 == 0 {
            self.add_asked(signal.stamp, body)
        } else {
            Ok(())
        }
    }

    // What the shell asks of the client.
    fn add_work(&mut self, moment: &Moment, work: &Work) -> Result<(), Fault> {
        if let Work::Request(ApiReq::Operate { name: _, op }) = work {
            self.wishes.push(Wish {
                stamp: moment.stamp,
                op: *op.get(),
            })?;
        }
        Ok(())
    }

    // What the client takes.
    fn add_told(&mut self, stamp: u64, signal: &ClientSignal) -> Result<(), Fault> {
        match signal {
            ClientSignal::TcBeginConf { name, tx } => self.begin(stamp, *name, tx),
            ClientSignal::TcKeyConf { tx, answer } => self.give(tx, answer),
            _ => Ok(()),
        }
    }

    // What the client sent by the step of this stamp.
    fn add_asked(&mut self, stamp: u64, signal: &ClientSignal) -> Result<(), Fault> {
        match signal {
            ClientSignal::TcBeginReq { name } => self.ask_begin(stamp, *name),
            ClientSignal::TcKeyReq { tx, op } => self.ask(stamp, tx, op),
            ClientSignal::TcCommitReq { tx } => self.ask_end(tx, true),
            ClientSignal::TcRollbackReq { tx } => self.ask_end(tx, self.wants_commit(tx)),
            _ => Ok(()),
        }
    }

    fn begin(&mut self, stamp: u64, name: Option<u16>, tx: &TxId) -> Result<(), Fault> {
        self.told.insert(*tx, Beginning { name, stamp })?;
        Ok(())
    }

    fn give(&mut self, tx: &TxId, answer: &HeldAnswer) -> Result<(), Fault> {
        self.given.push(Given {
            tx: *tx,
            answer: answer.get(),
        })?;
        Ok(())
    }

    fn ask_begin(&mut self, stamp: u64, name: Option<u16>) -> Result<(), Fault> {
        self.begins.push(Beginning { name, stamp })?;
        Ok(())
    }

    fn ask(&mut self, stamp: u64, tx: &TxId, op: &HeldOp) -> Result<(), Fault> {
        self.asked.push(Asked {
            tx: *tx,
            op: *op.get(),
            stamp,
        })?;
        Ok(())
    }

    fn ask_end(&mut self, tx: &TxId, commits: bool) -> Result<(), Fault> {
        self.ends.insert(*tx, commits)?;
        Ok(())
    }

    /// A mark of a step.
    ///
    /// # Errors
    /// `ReportedOnce`, where it is broken, or `NoMemory`.
    pub fn add_mark(&mut self, moment: &Moment, mark: &Mark) -> Result<(), Fault> {
        match mark {
            Mark::Reported { tx, outcome } => self.report(moment.stamp, tx, outcome),
            _ => Ok(()),
        }
    }

    fn report(&mut self, stamp: u64, tx: &TxId, outcome: &Outcome) -> Result<(), Fault> {
        if self.reported.contains_key(tx) {
            return Err(Fault::Broken(Law::ReportedOnce));
        }
        let report = Report {
            outcome: *outcome,
            stamp,
        };
        self.reported.insert(*tx, report)?;
        Ok(())
    }

    /// Whether the transaction was reported committed.
    pub fn is_committed(&self, tx: &TxId) -> bool {
        match self.reported.get(tx) {
            Some(report) => match report.outcome {
                Outcome::Committed(_) => true,
                _ => false,
            },
            None => false,
        }
    }

    /// Whether a coordinator was asked to commit the transaction.
    pub fn wants_commit(&self, tx: &TxId) -> bool {
        self.ends.get(tx).copied().unwrap_or(false)
    }

    /// The stamp of the last step in which the client asked for one of the transaction's name, before it
    /// was told of the transaction: as far as a coordinator came to be asked.
    pub fn asked_for(&self, tx: &TxId) -> Option<u64> {
        match self.told.get(tx) {
            Some(told) => self.last_begin(told),
            None => None,
        }
    }

    fn last_begin(&self, told: &Beginning) -> Option<u64> {
        let mut last: Option<u64> = None;
        for begin in self.begins.as_slice() {
            if begin.name == told.name && begin.stamp < told.stamp && is_later(begin.stamp, last) {
                last = Some(begin.stamp);
            }
        }
        last
    }

    /// Whether the shell asked for the operation, in that step or one before it.
    pub fn is_wished(&self, asked: &Asked) -> bool {
        for wish in self.wishes.as_slice() {
            if wish.stamp <= asked.stamp && is_same(&wish.op, &asked.op) {
                return true;
            }
        }
        false
    }
}

fn is_later(stamp: u64, than: Option<u64>) -> bool {
    match than {
        Some(before) => before < stamp,
        None => true,
    }
}

/// What an operation does with its row.
#[derive(Clone, Copy, PartialEq, Eq)]
enum Kind {
    Get,
    GetX,
    Put,
    Ins,
    Upd,
    Del,
}

fn kind_of(op: &Op) -> Kind {
    match op {
        Op::Get(_) => Kind::Get,
        Op::GetX(_) => Kind::GetX,
        Op::Put(_, _) => Kind::Put,
        Op::Ins(_, _) => Kind::Ins,
        Op::Upd(_, _) => Kind::Upd,
        Op::Del(_) => Kind::Del,
    }
}

/// Whether two operations are the same.
pub fn is_same(one: &Op, other: &Op) -> bool {
    kind_of(one) == kind_of(other) && one.key() == other.key() && one.image() == other.image()
}
