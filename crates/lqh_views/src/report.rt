//! Reports to takeovers.
ghost use Rattle.std.specs.Prelude.{◌≡◌};
ghost use Rattle.sig_core.specs.Step.{HasRoom, IsTaken};
ghost use Rattle.lqh_views.specs.Report.{ending, go_on_row, is_orphaned_marker, is_orphaned_record, last_before};
ghost use Rattle.lqh_views.specs.Report.{next_marker, report_row, reporting, telling, told_marker, told_record};

use crate::replica::Replica;
use lqh_block::{Marker, is_coordinated};
use sig_core::{
    Body, HostSignal, Journal, Member, Outgoing, Outs, PendingRecord, RecordState, Rows,
    TakeoverSignal, Work, rows_of, takeover,
};

/// A report that is under way.
#[derive(Clone, Copy)]
pub struct Report {
    /// The node of the takeover.
    pub to: u8,
    /// How many records, counted from the oldest, are still to be gone through.
    pub records: usize,
    /// How many markers are.
    pub markers: usize,
}

// Whether the transaction's coordinator is none of these full members.
fn is_orphaned(full: &[Member], one: &PendingRecord) -> bool
    ensures { result ≡ is_orphaned_record full.now one.now }
{
    !is_coordinated(full, one.tx)
}

// Whether that of the marker's transaction is none of them.
fn is_orphaned_marker(full: &[Member], marker: &Marker) -> bool
    ensures { result ≡ is_orphaned_marker full.now marker.now }
{
    !is_coordinated(full, marker.tx)
}

// The last record before a place whose transaction's coordinator is none of the full members.
#[tactic(auto, using(crate::proofs::LastLemmas::lasts))]
fn last_record<R: Rows>(full: &[Member], rows: &R, before: usize) -> Option<(usize, PendingRecord)>
    ensures { result ≡ last_before (is_orphaned_record full.now) (R.state_of rows.now).pending before }
{
    let mut at = before;
    while at > 0 {
        at -= 1;
        if let Some(one) = rows.record_at(at) {
            if is_orphaned(full, &one) {
                return Some((at, one));
            }
        }
    }
    None
}

// The last marker before a place of which that is so.
#[tactic(auto, using(crate::proofs::LastLemmas::lasts))]
fn last_marker(full: &[Member], markers: &[Marker], before: usize) -> Option<(usize, Marker)>
    ensures { result ≡ last_before (is_orphaned_marker full.now) markers.now before }
{
    let mut at = before;
    while at > 0 {
        at -= 1;
        if let Some(marker) = markers.get(at) {
            if is_orphaned_marker(full, marker) {
                return Some((at, *marker));
            }
        }
    }
    None
}

// What a takeover is told of a record.
fn tell_record(to: u8, one: &PendingRecord) -> Outgoing
    ensures { result ≡ told_record to one.now }
{
    let (state, epoch) = if one.committed {
        (RecordState::Committed, one.epoch)
    } else {
        (RecordState::Prepared, 0)
    };
    Outgoing {
        to: takeover(to),
        body: Body::Takeover(TakeoverSignal::LqhTransConf {
            tx: one.tx,
            key: one.key,
            state,
            epoch,
        }),
    }
}

// What it is told of a marker.
fn tell_marker(to: u8, marker: &Marker) -> Outgoing
    ensures { result ≡ told_marker to marker.now }
{
    Outgoing {
        to: takeover(to),
        body: Body::Takeover(TakeoverSignal::LqhTransConf {
            tx: marker.tx,
            key: marker.key,
            state: RecordState::Marker,
            epoch: marker.epoch,
        }),
    }
}

impl<R: Rows, J: Journal> Replica<R, J> {
    /// A takeover at this node asks: a report of all that there is begins.
    pub(crate) fn begin_report(&mut self, from: u8, out: &mut Outs)
        requires { HasRoom out.old }
        ensures { IsTaken (report_row self.old from) self.new out.old out.new }
    {
        let report = Report {
            to: from,
            records: self.lqh.rows().records(),
            markers: self.lqh.markers().len(),
        };
        self.report_next(report, out);
    }

    /// The report goes on, unless another view was installed since.
    pub(crate) fn go_on(&mut self, number: u64, out: &mut Outs)
        requires { HasRoom out.old }
        ensures { IsTaken (go_on_row self.old number) self.new out.old out.new }
    {
        if number == self.lqh.view().number {
            if let Some(report) = self.report {
                self.report_next(report, out);
            }
        }
    }

    // The last record that is left is told, and where there is none the last marker.
    #[tactic(auto, unfolding(crate::specs::Report::reporting))]
    fn report_next(&mut self, report: Report, out: &mut Outs)
        requires { HasRoom out.old }
        ensures { IsTaken (reporting self.old report) self.new out.old out.new }
    {
        let full = self.lqh.view().full;
        match last_record(full.as_slice(), self.lqh.rows(), report.records) {
            Some((records, one)) => {
                let send = tell_record(report.to, &one);
                self.tell(Report { records, ..report }, send, out);
            }
            None => self.report_marker(report, out),
        }
    }

    // The last marker that is left is told, and where there is none all is told.
    fn report_marker(&mut self, report: Report, out: &mut Outs)
        requires { HasRoom out.old }
        ensures { IsTaken (next_marker self.old report) self.new out.old out.new }
    {
        let full = self.lqh.view().full;
        match last_marker(full.as_slice(), self.lqh.markers(), report.markers) {
            Some((markers, marker)) => {
                let send = tell_marker(report.to, &marker);
                let left = Report {
                    to: report.to,
                    records: 0,
                    markers,
                };
                self.tell(left, send, out);
            }
            None => self.end_report(report, out),
        }
    }

    // Something is told, this is left to report, and the block goes on with it.
    fn tell(&mut self, left: Report, send: Outgoing, out: &mut Outs)
        requires { HasRoom out.old }
        ensures { IsTaken (telling self.old left send) self.new out.old out.new }
    {
        self.report = Some(left);
        out.send(send.to, send.body);
        let work = Work::Report;
        out.send(
            rows_of(self.lqh.node()),
            Body::Host(HostSignal::Continue { work, at: 0 }),
        );
    }

    // All is told.
    fn end_report(&mut self, report: Report, out: &mut Outs)
        requires { HasRoom out.old }
        ensures { IsTaken (ending self.old report) self.new out.old out.new }
    {
        self.report = None;
        out.send(
            takeover(report.to),
            Body::Takeover(TakeoverSignal::LqhTransEnd),
        );
    }
}
