//! The reports of a journal's file, one after another.
ghost use Rattle.std.specs.Prelude.{◌≡◌, ◌<◌, ◌≤◌, ◌+◌, [], List, ℕ, length, slice_get, IsTrue, IfOk, IfSome, IfNone, Some, None};
ghost use Rattle.house_io.specs.Disks.{IsLater, IfDiskTold};
ghost use Rattle.demand_set.specs.declared.reports.Report.{Report as ReportValue};
ghost use Rattle.report_journal.specs.Calls.{OnlyReads};
ghost use Rattle.report_journal.specs.Scans.{IsScan, IsInOrder, places_in};
ghost use Rattle.recovery.specs.Journaled.{owner_of};
ghost use Rattle.recovery.specs.Entries.{Spells};
ghost use Rattle.recovery.specs.Streams.{HasBegun, IsAhead, Passes, IsReportAt, HasNoReportAt, damaged_in, AnswersAgain, GoesOn, CountsFaults, IsSyncedBy, HasGivenOf, AnswersOf};

use crate::entries::read_report;
use crate::faults::{Broken, JournalCause, RecoverFault};
use crate::owners::broken_header;
use crate::windows::Window;
use demand_set::Report;
use house_io::{Disk, Failed};
use lot_base::{NoMemory, Terms};
use report_journal::{JournalFault, Place, Scanned, scan};
use std::alloc::Global;
use std::marker::Model;

/// What a reader of a journal's reports answers.
#[derive(Debug, Drop)]
pub enum Next {
    /// The next report of the file.
    Report(Report),
    /// The first broken record.
    Broken(Broken),
    /// There are no more reports, and no record is broken.
    End,
}

/// The reports of a journal's file, read one after another through a buffer. Its memory besides is what the scan takes.
#[derive(Drop)]
pub struct Reports {
    /// Those of the auction. They decide which payloads are reports, and the version and opening that the header has to have.
    terms: Terms,
    /// The number of the clock that the header has to name.
    clock: u8,
    /// The SHA-256 of the auction's file, which the header has to name.
    digest: [u8; 32],
    /// What the scan found with which the reading began: it has the place of each payload.
    scan: Scanned,
    /// How many reports were given.
    given: usize,
    /// The first broken record, once it was met.
    broken: Option<Broken>,
    /// Bytes of the file that were read ahead, which the next payloads are taken from.
    window: Window,
}

impl Model for Reports {
    ghost use Rattle.std.specs.Prelude.{◌≡◌, ◌≤◌, length, None};
    ghost use Rattle.report_journal.specs.Scans.{IsInOrder, places_in};
    ghost use Rattle.recovery.specs.Journaled.{owner_of};
    ghost use Rattle.recovery.specs.Causes.{HasOwnHeader};
    ghost use Rattle.recovery.specs.Streams.{ReportsOf};

    ghost Value = { ReportsOf };

    ghost view = { λ r. record {
      owner = owner_of r.terms r.clock r.digest;
      scan = r.scan;
      given = r.given;
      broken = r.broken;
      window = r.window;
    } };

    ghost invariant = { λ r. IsInOrder r.scan × (r.given ≤ length (places_in r.scan))
        × (r.broken ≡ None → HasOwnHeader (owner_of r.terms r.clock r.digest) r.scan) };
}

impl Reports {
    /// Scans a disk, to read its file as the reports of this clock of this auction. It syncs first, and changes no byte.
    pub fn begin<D: Disk>(
        alloc: Global,
        disk: &mut D,
        terms: &Terms,
        clock: u8,
        digest: &[u8; 32],
    ) -> Result<Reports, RecoverFault>
        ensures begun { IfOk result (HasBegun (owner_of terms.now clock digest.now)) }
        ensures given { IfOk result (λ r. HasGivenOf (D.shown disk.new) r []) }
        ensures in_order { IfOk result (λ r. IsInOrder r.scan) }
        ensures synced { IfDiskTold (D.shown disk.old) (D.shown disk.new) (IsSyncedBy result) }
        ensures later { IsLater (D.shown disk.old) (D.shown disk.new) }
        ensures faults { CountsFaults (D.shown disk.old).faults (D.shown disk.new).faults result }
    {
        let window = Window::new(alloc)?;
        let scan = scanned(alloc, disk)?;
        let broken = broken_header(&scan, terms, clock, digest);
        Ok(Reports {
            terms: *terms,
            clock,
            digest: *digest,
            scan,
            given: 0,
            broken,
            window,
        })
    }

    /// How many reports were given.
    pub fn given(&self) -> u32
        ensures value { result ≡ self.now.given }
        ensures within { result ≤ length (places_in self.now.scan) }
    {
        self.given as u32
    }

    /// What the scan answered with which it began. Takes no memory.
    pub fn into_scan(self) -> Scanned
        ensures scan { result ≡ self.scan }
        ensures in_order { IsInOrder result }
    {
        self.scan
    }
}

impl Reports {
    /// The next report of the file, or the first broken record, or the end. A broken record and the end are answered again. On a
    /// refusal nothing changes but what was read ahead.
    pub fn next<D: Disk>(&mut self, alloc: Global, disk: &mut D) -> Result<Next, RecoverFault>
        ensures answer { (given : List ReportValue)
            → HasGivenOf (D.shown disk.old) self.old given
            → AnswersOf (D.shown disk.new) self.new given result }
        ensures goes_on { GoesOn self.old self.new result }
        ensures again { AnswersAgain self.old result }
        ensures reads { OnlyReads D.shown disk.old disk.new }
        ensures faults { CountsFaults (D.shown disk.old).faults (D.shown disk.new).faults result }
    {
        if let Some(broken) = self.broken {
            return Ok(Next::Broken(broken));
        }
        match place_at(&self.scan, self.given) {
            Some(place) => self.read_at(alloc, disk, place),
            None => match damaged_number(&self.scan) {
                None => Ok(Next::End),
                Some(number) => Ok(self.break_off(number, JournalCause::Damaged)),
            },
        }
    }

    /// The payload of the next record, where it was read ahead whole and no record is broken. Takes no memory.
    pub fn ahead(&self) -> Option<&[u8]>
        ensures { IfSome result (λ payload. IsAhead self.now payload.now) }
    {
        if self.broken.is_some() {
            return None;
        }
        let place = place_at(&self.scan, self.given)?;
        if !self.window.has(place) {
            return None;
        }
        Some(self.window.payload(place))
    }

    /// Passes over the next record, as if its report had been given.
    pub fn pass(&mut self)
        requires unbroken { self.old.broken ≡ None }
        requires more { self.old.given < length (places_in self.old.scan) }
        ensures next { self.new ≡ record self.old { given = self.old.given + 1 } }
        ensures passes { (r : ReportValue) (payload : List ℕ) → IsAhead self.old payload → Spells self.old.owner.terms payload r
            → Passes self.old self.new r }
    {
        self.given += 1;
    }

    /// The report at this place, which is the next one.
    fn read_at<D: Disk>(
        &mut self,
        alloc: Global,
        disk: &mut D,
        place: Place,
    ) -> Result<Next, RecoverFault>
        requires unbroken { self.old.broken ≡ None }
        requires next { slice_get (places_in self.old.scan) self.old.given ≡ Some place }
        ensures answer { (given : List ReportValue)
            → HasGivenOf (D.shown disk.old) self.old given
            → AnswersOf (D.shown disk.new) self.new given result }
        ensures goes_on { GoesOn self.old self.new result }
        ensures reads { OnlyReads D.shown disk.old disk.new }
        ensures faults { CountsFaults (D.shown disk.old).faults (D.shown disk.new).faults result }
    {
        if let Err(Failed) = self.window.cover(disk, place) {
            return Err(RecoverFault::DiskFault);
        }
        match self.report_at(alloc, place) {
            Err(NoMemory) => Err(RecoverFault::NoMemory),
            Ok(None) => {
                let number = self.given as u32 + 1;
                Ok(self.break_off(number, JournalCause::NotReport))
            }
            Ok(Some(report)) => {
                self.given += 1;
                Ok(Next::Report(report))
            }
        }
    }

    /// The report of the payload at this place. A payload that is not there whole is that of none.
    fn report_at(&self, alloc: Global, place: Place) -> Result<Option<Report>, NoMemory>
        ensures some { IfOk result (λ o. IfSome o (IsReportAt self.now place)) }
        ensures none { IfOk result (λ o. IfNone o (HasNoReportAt self.now place)) }
    {
        if !self.window.has(place) {
            return Ok(None);
        }
        read_report(alloc, &self.terms, self.window.payload(place))
    }

    /// Keeps the first broken record, and answers it.
    fn break_off(&mut self, number: u32, cause: JournalCause) -> Next
        ensures kept { self.new ≡ record self.old { broken = Some (record { number = number; cause = cause }) } }
        ensures answer { result ≡ Next.Broken (record { number = number; cause = cause }) }
    {
        let broken = Broken { number, cause };
        self.broken = Some(broken);
        Next::Broken(broken)
    }
}

/// The place of a record of a scan, from 0.
fn place_at(scan: &Scanned, index: usize) -> Option<Place>
    ensures { result ≡ slice_get (places_in scan.now) index }
{
    places_of(scan).get(index).copied()
}

/// The places of the records of a scan.
fn places_of(scan: &Scanned) -> &[Place]
    ensures { result.now ≡ places_in scan.now }
{
    match scan {
        Scanned::Unformed => &[],
        Scanned::Formed { records, .. } => records.as_slice(),
        Scanned::Damaged { records, .. } => records.as_slice(),
    }
}

/// The number of the damaged record of a scan.
fn damaged_number(scan: &Scanned) -> Option<u32>
    ensures { result ≡ damaged_in scan.now }
{
    match scan {
        Scanned::Damaged { number, .. } => Some(*number),
        _ => None,
    }
}

/// Scans a disk.
fn scanned<D: Disk>(alloc: Global, disk: &mut D) -> Result<Scanned, RecoverFault>
    ensures found { IfOk result (λ s. IfDiskTold (D.shown disk.old) (D.shown disk.new) (λ before _. IsScan s before.now.read)) }
    ensures in_order { IfOk result IsInOrder }
    ensures synced { IfDiskTold (D.shown disk.old) (D.shown disk.new) (IsSyncedBy result) }
    ensures later { IsLater (D.shown disk.old) (D.shown disk.new) }
    ensures faults { CountsFaults (D.shown disk.old).faults (D.shown disk.new).faults result }
{
    match scan(alloc, disk) {
        Ok(found) => Ok(found),
        Err(JournalFault::DiskFault) => Err(RecoverFault::DiskFault),
        Err(_) => Err(RecoverFault::NoMemory),
    }
}
