//! A clock with the history of its desk.
ghost use Rattle.std.specs.Prelude.{◌≡◌, ◌≢◌, ◌+◌, ◌≤◌, ◌++◌, ◌%◌, ◌^◌, [], ◌∷◌, map, length};
ghost use Rattle.std.specs.List.{concat};
ghost use Rattle.lot_base.specs.Demands.{IsDemand};
ghost use Rattle.demand_set.specs.declared.reports.Report.{Report as ReportValue};
ghost use Rattle.clock.specs.Judging.{judgement_of};
ghost use Rattle.clock.specs.Reports.{with_report, applied};
ghost use Rattle.clock.specs.declared.judging.Judgement.TheVariants.{Take};

use crate::entries::{Note, Since, note_after};
use clock::Clock;
use demand_set::Report;
use std::alloc::Global;
use std::marker::Model;
use std::snapshot::Snapshot;

/// A clock with the history of its desk, and with room for further reports. The history is there for the proofs alone: what is kept of
/// it are the reports, by the clock, and the number of marks.
#[derive(Drop)]
pub(crate) struct NotedClock {
    /// Its reports are those of the history, in order.
    clock: Clock,
    /// The clock as it was at the opening, whose reports are all noted as offered.
    opened: Snapshot<Clock>,
    /// The reports that were offered since, with what is noted of each.
    since: Since,
    /// How many marks there are, modulo 2^64.
    marks: u64,
}

impl Model for NotedClock {
    ghost use Rattle.clock_book.specs.DeskHistories.{NotedOf, history_of, IsNoted};
    ghost use Rattle.clock_book.specs.Noted.{noted_in};

    ghost Value = { NotedOf };

    ghost view = { λ n. record {
      clock = n.clock.history;
      history = history_of n.opened.value.history.reports (noted_in n.since);
      spare_reports = n.clock.spare_reports;
      spare_quantities = n.clock.spare_quantities;
    } };

    ghost invariant = { λ n. IsNoted n.clock.history.reports (history_of n.opened.value.history.reports (noted_in n.since)) n.marks };
}

impl NotedClock {
    ghost use Rattle.clock.specs.Judging.{IsLegal};
    ghost use Rattle.clock.specs.Reports.{most_reports};
    ghost use Rattle.clock_book.specs.DeskHistories.{HasRoomFor, entry_of, reports_in};
    ghost use Rattle.clock_book.specs.declared.entries.Entry.TheVariants.{Offered, Mark};
    ghost use Rattle.clock_book.specs.declared.entries.Note.TheVariants.{Failed};

    /// The clock with its reports, all noted as offered.
    pub(crate) fn new(clock: Clock) -> NotedClock
        ensures clock { result.clock ≡ clock.history }
        ensures history { result.history ≡ map Offered clock.history.reports }
        ensures reports { result.spare_reports ≡ clock.spare_reports }
        ensures quantities { result.spare_quantities ≡ clock.spare_quantities }
    {
        let opened = Snapshot::of(&clock);
        NotedClock {
            clock,
            opened,
            since: Since::Opening,
            marks: 0,
        }
    }

    /// The clock.
    pub(crate) fn clock(&self) -> &Clock
        ensures value { result.now.history ≡ self.now.clock }
        ensures legal { IsLegal self.now.clock }
        ensures reports { reports_in self.now.history ≡ self.now.clock.reports }
        ensures more { (r : ReportValue) → judgement_of self.now.clock r ≡ Take
            → length self.now.clock.reports + 1 ≤ most_reports self.now.clock.terms self.now.clock.number }
    {
        let _legal = self.clock.number();
        let _more = self.clock.count();
        &self.clock
    }

    /// Gives the clock back.
    pub(crate) fn into_clock(self) -> Clock
        ensures { result.history ≡ self.clock }
    {
        let NotedClock {
            clock,
            opened: _,
            since: _,
            marks: _,
        } = self;
        clock
    }

    /// The number of entries of the history, modulo 2^64.
    pub(crate) fn length(&self) -> u64
        ensures { result ≡ length self.now.history % 2 ^ 64 }
    {
        (self.clock.count() as u64).wrapping_add(self.marks)
    }

    /// Takes a report for which there is room, with this note.
    pub(crate) fn take(&mut self, alloc: Global, report: Report, note: Note)
        requires take { judgement_of self.old.clock report ≡ Take }
        requires fits { IsDemand self.old.clock.terms.goods report.demand }
        requires room { HasRoomFor self.old report }
        requires note { note ≢ Failed }
        ensures clock { self.new.clock ≡ with_report self.old.clock report }
        ensures history { self.new.history ≡ self.old.history ++ entry_of (report, note) ∷ [] }
        ensures reports { self.old.spare_reports ≤ self.new.spare_reports + 1 }
        ensures quantities { self.old.spare_quantities ≤ self.new.spare_quantities + length (concat report.demand) }
    {
        self.since = note_after(&self.since, &report, note);
        apply_reserved(alloc, &mut self.clock, report);
    }

    /// Marks a report whose offer is answered by a fault of the disk.
    pub(crate) fn mark(&mut self, report: &Report)
        ensures clock { self.new.clock ≡ self.old.clock }
        ensures history { self.new.history ≡ self.old.history ++ Mark report.now ∷ [] }
        ensures reports { self.new.spare_reports ≡ self.old.spare_reports }
        ensures quantities { self.new.spare_quantities ≡ self.old.spare_quantities }
    {
        self.since = note_after(&self.since, report, Note::Failed);
        self.marks = self.marks.wrapping_add(1);
    }
}

/// Takes no memory.
fn apply_reserved(alloc: Global, clock: &mut Clock, report: Report)
    requires take { judgement_of clock.old.history report ≡ Take }
    requires fits { IsDemand clock.old.history.terms.goods report.demand }
    requires reports { 1 ≤ clock.old.spare_reports }
    requires quantities { length (concat report.demand) ≤ clock.old.spare_quantities }
    ensures { clock.new ≡ applied clock.old report }
{
    let _in_room = clock.apply(alloc, report);
}
