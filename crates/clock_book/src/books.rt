//! A clock book.
ghost use Rattle.std.specs.Prelude.{◌≡◌, ◌<◌, ◌≤◌, ◌%◌, ◌^◌, ◌↔◌, length, IsTrue, IsSome, OnOk, OnErr, Some, None};
ghost use Rattle.house_io.specs.Disks.{IsLater, IfDiskTold};
ghost use Rattle.lot_base.specs.Demands.{IsDemand};
ghost use Rattle.house_io.specs.Faults.{HasCause, Rose};
ghost use Rattle.house_io.specs.Moments.{AtEach};
ghost use Rattle.clock.specs.declared.judging.Judgement.TheVariants.{Take};
ghost use Rattle.clock.specs.declared.judging.Offered.TheVariants.{DiskFault};
ghost use Rattle.clock.specs.Judging.{judgement_of};
ghost use Rattle.recovery.specs.Journaled.{StandsForReports};
ghost use Rattle.clock_book.specs.Past.{owner_in, IsEither};

use crate::entries::Note;
use crate::noted::NotedClock;
use crate::origins::Start;
use crate::payloads::Payload;
use clock::{Clock, Judgement, Look, Offered};
use demand_set::{Demand, Report};
use house_io::{Disk, Failed};
use report_journal::{Hint, Journal, JournalFault, Mended, NoHint};
use std::alloc::Global;
use std::marker::Model;

/// A clock whose reports are journaled. At most one report is pending: it is in doubt since the disk failed. What an offer needs was
/// reserved when the book was opened.
#[derive(Drop)]
pub struct ClockBook<D: Disk> {
    /// The clock, whose reports are those that count, with the history of its desk.
    pub(crate) noted: NotedClock,
    /// On it is a record for each report of the clock, in order, and the one in doubt is the pending report's.
    pub(crate) journal: Journal<D>,
    /// The report in doubt. The next offer settles first whether it counts.
    pub(crate) pending: Option<Report>,
    /// Where the payload of an offered report is written before it is appended.
    pub(crate) payload: Payload,
    /// The origin of the book, which stays as it was when the opening was answered.
    pub(crate) start: Start<D>,
}

impl<D: Disk> Model for ClockBook<D> {
    ghost use Rattle.std.specs.Prelude.{IsTrue};
    ghost use Rattle.clock_book.specs.Books.{BookOf, IsBookOn};

    ghost Value = { BookOf D };

    ghost view = { λ b. record {
      disk = b.journal.disk;
      state = record { clock = b.noted.clock; history = b.noted.history; pending = b.pending };
      origin = b.start;
    } };

    ghost invariant = { λ b. IsBookOn (D.shown b.journal.disk) b.journal b.noted b.pending b.start };
}

impl<D: Disk> ClockBook<D> {
    ghost use Rattle.clock_book.specs.Offers.{marked, IsMended, IsByGate};

    /// Counts or drops the pending report, if there is one. Where the disk fails it is still pending, and the offered report is marked.
    fn settle_pending(&mut self, alloc: Global, offered: &Report) -> Result<(), Failed>
        ensures mended { OnOk result (IsMended self.old.state self.new.state) }
        ensures gate { OnOk result (IfDiskTold (D.shown self.old.disk) (D.shown self.new.disk)
            (λ before _. IsByGate (owner_in self.old.origin) before.now.read self.old.state self.new.state)) }
        ensures failed { OnErr result (IsSome self.old.state.pending × (self.new.state ≡ marked self.old.state offered.now)) }
        ensures cause { HasCause (D.shown self.old.disk).faults (D.shown self.new.disk).faults result }
        ensures origin { self.new.origin ≡ self.old.origin }
        ensures later { IsLater (D.shown self.old.disk) (D.shown self.new.disk) }
        ensures moments { IfDiskTold (D.shown self.old.disk) (D.shown self.new.disk)
            (AtEach (IsEither (owner_in self.old.origin) self.old.state.clock.reports self.old.state.pending)) }
    {
        let _kept = self.journal.count();
        match self.journal.mend() {
            Err(_) => {
                self.noted.mark(offered);
                Err(Failed)
            }
            Ok(Mended::Nothing) => Ok(()),
            Ok(Mended::Dropped) => {
                self.pending = None;
                Ok(())
            }
            Ok(Mended::Counted) => {
                let pending = self.pending.take();
                self.noted.take(alloc, pending.unwrap(), Note::Counted);
                Ok(())
            }
        }
    }
}

impl<D: Disk> ClockBook<D> {
    ghost use Rattle.clock_book.specs.Offers.{Answers, CountsOffer};

    /// Appends a report that the clock takes next, and applies it once it is on the disk.
    fn append_and_apply<H: Hint>(&mut self, alloc: Global, report: Report, hint: &H) -> Offered
        requires settled { self.old.state.pending ≡ None }
        requires take { judgement_of self.old.state.clock report ≡ Take }
        requires fits { IsDemand self.old.state.clock.terms.goods report.demand }
        ensures answer { Answers (owner_in self.old.origin) result self.old.state report self.new.state }
        ensures cause { result ≡ DiskFault → Rose (D.shown self.old.disk).faults (D.shown self.new.disk).faults }
        ensures origin { self.new.origin ≡ self.old.origin }
        ensures later { IsLater (D.shown self.old.disk) (D.shown self.new.disk) }
        ensures faults { CountsOffer (D.shown self.old.disk).faults (D.shown self.new.disk).faults result }
        ensures moments { IfDiskTold (D.shown self.old.disk) (D.shown self.new.disk)
            (AtEach (IsEither (owner_in self.old.origin) self.old.state.clock.reports (Some report))) }
    {
        let _kept = self.journal.count();
        let _more = self.noted.clock();
        self.payload.fill(self.start.terms(), &report);
        match self
            .journal
            .append_hinted(alloc, self.payload.as_slice(), hint)
        {
            Ok(_) => {
                self.noted.take(alloc, report, Note::Offered);
                Offered::Taken
            }
            Err(JournalFault::Full(needed)) => Offered::Full(needed),
            Err(JournalFault::DiskFault) => {
                self.noted.mark(&report);
                self.pending = Some(report);
                Offered::DiskFault
            }
            Err(JournalFault::NotMended) => unreachable!(),
            Err(JournalFault::NoMemory) => unreachable!(),
        }
    }
}

impl<D: Disk> ClockBook<D> {
    ghost use Rattle.clock.specs.Standing.{last_round, phase_of, prices_of};
    ghost use Rattle.clock_book.specs.Books.{IsKept};
    ghost use Rattle.clock_book.specs.Offers.{Answers, IsOffer, CountsOffer, Offers};

    /// Judges a report after those of the clock, where nothing is pending, and appends one that is to be taken.
    fn judge_and_append<H: Hint>(&mut self, alloc: Global, report: Report, hint: &H) -> Offered
        requires settled { self.old.state.pending ≡ None }
        requires fits { IsDemand self.old.state.clock.terms.goods report.demand }
        ensures answer { Answers (owner_in self.old.origin) result self.old.state report self.new.state }
        ensures cause { result ≡ DiskFault → Rose (D.shown self.old.disk).faults (D.shown self.new.disk).faults }
        ensures origin { self.new.origin ≡ self.old.origin }
        ensures later { IsLater (D.shown self.old.disk) (D.shown self.new.disk) }
        ensures faults { CountsOffer (D.shown self.old.disk).faults (D.shown self.new.disk).faults result }
        ensures moments { IfDiskTold (D.shown self.old.disk) (D.shown self.new.disk)
            (AtEach (IsEither (owner_in self.old.origin) self.old.state.clock.reports (Some report))) }
    {
        let clock = self.clock();
        match clock.judge(report.bidder, report.round, &report.demand) {
            Judgement::Take => self.append_and_apply(alloc, report, hint),
            Judgement::Again => Offered::Again,
            judgement => Offered::Refused(judgement),
        }
    }

    /// Mends, judges a report, and appends it where it is to be taken.
    fn mend_and_answer<H: Hint>(&mut self, alloc: Global, report: Report, hint: &H) -> Offered
        requires { IsDemand self.old.state.clock.terms.goods report.demand }
        ensures answer { IsOffer (owner_in self.old.origin) self.old.state report result self.new.state (D.shown self.old.disk)
            (D.shown self.new.disk) }
        ensures cause { result ≡ DiskFault → Rose (D.shown self.old.disk).faults (D.shown self.new.disk).faults }
        ensures origin { self.new.origin ≡ self.old.origin }
        ensures later { IsLater (D.shown self.old.disk) (D.shown self.new.disk) }
        ensures faults { CountsOffer (D.shown self.old.disk).faults (D.shown self.new.disk).faults result }
    {
        match self.settle_pending(alloc, &report) {
            Err(Failed) => Offered::DiskFault,
            Ok(()) => self.judge_and_append(alloc, report, hint),
        }
    }

    /// Offers a report. It mends first: a report that is pending is counted or dropped. Then the report is judged, and one that is to
    /// be taken is on the disk before it is answered. It takes no memory.
    pub fn offer(&mut self, alloc: Global, bidder: u8, round: u32, demand: Demand) -> Offered
        requires { IsDemand self.old.state.clock.terms.goods demand }
        ensures { Offers D.shown (record { bidder = bidder; round = round; demand = demand }) self.old self.new result }
    {
        self.offer_hinted(alloc, bidder, round, demand, &NoHint)
    }

    /// Offers a report so, and asks the hint for the payload of the report that is likely to be offered next. It makes that one the quicker,
    /// and has no part in any answer.
    pub fn offer_hinted<H: Hint>(
        &mut self,
        alloc: Global,
        bidder: u8,
        round: u32,
        demand: Demand,
        hint: &H,
    ) -> Offered
        requires { IsDemand self.old.state.clock.terms.goods demand }
        ensures { Offers D.shown (record { bidder = bidder; round = round; demand = demand }) self.old self.new result }
    {
        let answer = self.mend_and_answer(
            alloc,
            Report {
                bidder,
                round,
                demand,
            },
            hint,
        );
        let _kept = self.clock();
        answer
    }

    /// The clock, with the reports that were taken.
    pub fn clock(&self) -> &Clock
        ensures value { result.now.history ≡ self.now.state.clock }
        ensures kept { IsKept D.shown self.now }
    {
        let _kept = self.journal.count();
        self.noted.clock()
    }

    /// What the clock shows.
    pub fn look(&self) -> Look
        ensures round { result.round ≡ last_round self.now.state.clock }
        ensures phase { result.phase ≡ phase_of self.now.state.clock }
        ensures prices { result.prices ≡ prices_of self.now.state.clock }
    {
        self.clock().look()
    }

    /// Whether a report is pending.
    pub fn is_pending(&self) -> bool
        ensures { IsTrue result ↔ IsSome self.now.state.pending }
    {
        self.pending.is_some()
    }

    /// The number of entries of the desk's history, modulo 2^64.
    pub fn length(&self) -> u64
        ensures { result ≡ length self.now.state.history % 2 ^ 64 }
    {
        self.noted.length()
    }

    /// Gives the clock and the disk back. Takes no memory.
    pub fn into_parts(self) -> (Clock, D)
        ensures clock { result.0.history ≡ self.state.clock }
        ensures disk { result.1 ≡ self.disk }
    {
        let ClockBook {
            noted,
            journal,
            pending: _,
            payload: _,
            start: _,
        } = self;
        (noted.into_clock(), journal.into_disk())
    }
}
