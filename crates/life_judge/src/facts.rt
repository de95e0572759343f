//! What a cut of a life tells.
use crate::client::Client;
use crate::cut::Cut;
use crate::decisions::Decisions;
use crate::epochs::Epochs;
use crate::law::Fault;
use crate::moment::Moment;
use crate::records::Records;
use crate::views::{FIRST_VIEW, Views};
use sig_core::{HostLog, Life, LogStep, Mark, Signal};
use std::alloc::Global;

/// What the steps of a cut come to.
#[derive(Drop)]
pub struct Facts {
    pub views: Views,
    pub decisions: Decisions,
    pub client: Client,
    pub records: Records,
    pub epochs: Epochs,
}

/// What the steps of a cut tell.
///
/// # Errors
/// A law that they break by themselves, or `NoMemory`.
pub fn facts_of(alloc: Global, life: &Life, cut: &Cut) -> Result<Facts, Fault> {
    let mut facts = Facts::new(alloc);
    facts.add_all(alloc, cut, life)?;
    Ok(facts)
}

impl Facts {
    // Of no steps.
    fn new(alloc: Global) -> Facts {
        Facts {
            views: Views::new(alloc),
            decisions: Decisions::new(alloc),
            client: Client::new(alloc),
            records: Records::new(alloc),
            epochs: Epochs::new(alloc),
        }
    }

    fn add_all(&mut self, alloc: Global, cut: &Cut, life: &Life) -> Result<(), Fault> {
        for log in life.logs.as_slice() {
            self.add_log(alloc, cut, log)?;
        }
        Ok(())
    }

    fn add_log(&mut self, alloc: Global, cut: &Cut, log: &HostLog) -> Result<(), Fault> {
        let mut view = FIRST_VIEW;
        for step in log.steps.as_slice() {
            if !cut.has(log.host.0, step.stamp) {
                return Ok(());
            }
            view = self.add_step(alloc, log, view, step)?;
        }
        Ok(())
    }

    // A step of a host that had the view of this number. Gives the number of its view after it.
    fn add_step(
        &mut self,
        alloc: Global,
        log: &HostLog,
        before: u64,
        step: &LogStep,
    ) -> Result<u64, Fault> {
        let view = self.install(log, before, step)?;
        let moment = Moment {
            host: log.host.0,
            view,
            stamp: step.stamp,
        };
        self.add_signal(alloc, &moment, step.taken.get())?;
        self.add_marks(&moment, step)?;
        Ok(view)
    }

    // The view in the header of what a step took, and those that it installs.
    fn install(&mut self, log: &HostLog, before: u64, step: &LogStep) -> Result<u64, Fault> {
        self.views.add_header(step.taken.get().view.get())?;
        self.views.install(log, before, step)
    }

    fn add_signal(&mut self, alloc: Global, moment: &Moment, taken: &Signal) -> Result<(), Fault> {
        self.decisions.add_signal(alloc, taken)?;
        self.client.add_signal(moment, taken)?;
        self.records.add_signal(moment, taken)
    }

    fn add_marks(&mut self, moment: &Moment, step: &LogStep) -> Result<(), Fault> {
        for mark in step.marks.as_slice() {
            self.add_mark(moment, mark)?;
            self.add_end(moment, mark)?;
        }
        Ok(())
    }

    // What a mark tells of views, of decisions and of the client.
    fn add_mark(&mut self, moment: &Moment, mark: &Mark) -> Result<(), Fault> {
        self.views.add_mark(moment, mark)?;
        self.decisions.add_mark(moment, mark)?;
        self.client.add_mark(moment, mark)
    }

    // What it tells of records and of epochs.
    fn add_end(&mut self, moment: &Moment, mark: &Mark) -> Result<(), Fault> {
        self.records.add_mark(moment, mark)?;
        self.epochs.add_mark(moment, mark)
    }
}
