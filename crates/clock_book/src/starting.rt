//! How a book is opened.
ghost use Rattle.std.specs.Prelude.{◌≡◌, ◌≤◌, ◌*◌, [], List, ℕ, length, min, max, IsTrue, IfOk, IfErr};
ghost use Rattle.house_io.specs.Disks.{IsLater, IfDiskTells, IfDiskTold};
ghost use Rattle.lot_base.specs.Goods.{box_size};
ghost use Rattle.demand_set.specs.declared.reports.Report.{Report as ReportValue};
ghost use Rattle.house_io.specs.Moments.{IsSettled};
ghost use Rattle.report_journal.specs.Format.{IsHeader, IsUnformed};
ghost use Rattle.report_journal.specs.Scans.{IsInOrder, IsScan};
ghost use Rattle.recovery.specs.Journaled.{owner_of, header_of};
ghost use Rattle.recovery.specs.Streams.{IsUndamaged};
ghost use Rattle.clock_book.specs.declared.faults.OpenFault.TheVariants as why;
ghost use Rattle.clock_book.specs.Opening.{CountsFaults, IsSyncedBy};
ghost use Rattle.clock_book.specs.Opened.{not_formed, ReadsNoted, IsLaid, IsNotBegun, Begins, Opens, IsUnopened, IsFoundOn, IsNotedOn};

use crate::books::ClockBook;
use crate::faults::OpenFault;
use crate::noted::NotedClock;
use crate::opening::read_into;
use crate::origins::Start;
use crate::payloads::Payload;
use clock::{Clock, most_reports};
use house_io::{Disk, Failed};
use lot_base::{NoMemory, Terms};
use report_journal::{Header, Journal, JournalFault, NotFormed, Scanned};
use std::alloc::Global;
use std::snapshot::Snapshot;

/// The most quantities that a journal has room for.
const MOST_QUANTITIES: u64 = 33_554_432;

/// A disk on which no book was opened, with the reason.
#[derive(Drop)]
pub struct Unopened<D> {
    /// The disk that was given, handed back. It was synced, unless the opening stopped before; an unformed file may have got a header.
    pub disk: D,
    /// Why no book was opened.
    pub fault: OpenFault,
}

impl<D: Disk> ClockBook<D> {
    /// Opens a book on a disk: its reports are those that the file stands for, all noted as offered. It claims the disk first, and then
    /// syncs. An unformed file is formed; no other file is changed. Room is reserved for all reports that the clock may still take.
    pub fn open(
        alloc: Global,
        disk: D,
        terms: &Terms,
        clock: u8,
        digest: &[u8; 32],
    ) -> Result<ClockBook<D>, Unopened<D>>
        requires { clock ≤ terms.now.bidders }
        ensures ok { IfOk result (λ b. Opens D.shown (owner_of terms.now clock digest.now) disk b) }
        ensures err { IfErr result (λ e. IsUnopened D.shown (owner_of terms.now clock digest.now) disk e.disk e.fault) }
    {
        let mut disk = disk;
        // Nobody else writes the file from here on, so it is still what is read below when it is written.
        if let Err(Failed) = disk.claim() {
            return Err(Unopened {
                disk,
                fault: OpenFault::DiskFault,
            });
        }
        match read_noted(alloc, &mut disk, terms, clock, digest) {
            Err(fault) => Err(Unopened { disk, fault }),
            Ok((noted, scan)) => begin(alloc, disk, scan, noted, terms, clock, digest),
        }
    }
}

/// The clock of the reports that a disk's file stands for, all noted as offered, with room for the most, and what the scan found.
fn read_noted<D: Disk>(
    alloc: Global,
    disk: &mut D,
    terms: &Terms,
    clock: u8,
    digest: &[u8; 32],
) -> Result<(NotedClock, Scanned), OpenFault>
    requires { clock ≤ terms.now.bidders }
    ensures read { IfDiskTold (D.shown disk.old) (D.shown disk.new)
        (λ before _. ReadsNoted (owner_of terms.now clock digest.now) before.now.read result) }
    ensures noted { IfOk result (λ r. IsNotedOn (D.shown disk.new) (owner_of terms.now clock digest.now) r.0 r.1) }
    ensures synced { IfDiskTold (D.shown disk.old) (D.shown disk.new) (IsSyncedBy result) }
    ensures later { IsLater (D.shown disk.old) (D.shown disk.new) }
    ensures faults { CountsFaults (D.shown disk.old).faults (D.shown disk.new).faults result }
{
    let most = most_reports(terms, clock);
    let quantities = most_quantities(terms, most);
    let empty = Clock::with_room(alloc, terms, clock, most, quantities)?;
    match read_into(alloc, disk, empty, terms, clock, digest) {
        Err(fault) => Err(fault),
        Ok((taken, scan)) => Ok((NotedClock::new(taken), scan)),
    }
}

/// How many quantities so many reports have at most, as far as a journal has room for them.
fn most_quantities(terms: &Terms, most: u32) -> u32
    requires { most ≤ 720012 }
    ensures { result ≡ min 33554432 (most * (length terms.now.goods * box_size terms.now.goods)) }
{
    let each = terms.goods.count() as u64 * terms.goods.box_size() as u64;
    MOST_QUANTITIES.min(most as u64 * each) as u32
}

/// Begins a book on a disk that was synced and read.
fn begin<D: Disk>(
    alloc: Global,
    disk: D,
    scan: Scanned,
    noted: NotedClock,
    terms: &Terms,
    clock: u8,
    digest: &[u8; 32],
) -> Result<ClockBook<D>, Unopened<D>>
    requires claimed { IsTrue (D.shown disk).claimed }
    requires number { clock ≤ terms.now.bidders }
    requires settled { IfDiskTells (D.shown disk) (λ moments. IsSettled moments.now) }
    requires noted { IsNotedOn (D.shown disk) (owner_of terms.now clock digest.now) noted scan }
    ensures ok { IfOk result (λ b. Begins D.shown (owner_of terms.now clock digest.now) noted.clock disk b) }
    ensures err { IfErr result (λ e. IsNotBegun D.shown (owner_of terms.now clock digest.now) disk e.disk e.fault) }
{
    let Ok(payload) = Payload::new(alloc) else {
        return Err(Unopened {
            disk,
            fault: OpenFault::NoMemory,
        });
    };
    let synced = Snapshot::of(&disk);
    let reports = noted.clock().count() as u64;
    let most = most_reports(terms, clock);
    match roomy_journal(alloc, disk, scan, terms, clock, digest, most) {
        Err(unopened) => Err(unopened),
        Ok(journal) => {
            let _kept = journal.count();
            let start = Start {
                terms: *terms,
                clock,
                digest: *digest,
                synced,
                reports,
                answered: Snapshot::of(&journal),
            };
            Ok(ClockBook {
                noted,
                journal,
                pending: None,
                payload,
                start,
            })
        }
    }
}

/// The journal on a disk that was scanned, with room for so many records.
fn roomy_journal<D: Disk>(
    alloc: Global,
    disk: D,
    scan: Scanned,
    terms: &Terms,
    clock: u8,
    digest: &[u8; 32],
    most: u32,
) -> Result<Journal<D>, Unopened<D>>
    requires claimed { IsTrue (D.shown disk).claimed }
    requires in_order { IsInOrder scan }
    requires undamaged { IsUndamaged scan }
    requires scanned { IfDiskTells (D.shown disk) (λ moments. IsSettled moments.now × IsScan scan moments.now.read) }
    ensures laid { IfOk result (λ j. (reports : List ReportValue)
        → IsFoundOn (D.shown disk) (owner_of terms.now clock digest.now) reports scan
        → IsLaid D.shown (owner_of terms.now clock digest.now) reports disk j) }
    ensures roomy { IfOk result (λ j. most ≤ j.spare) }
    ensures err { IfErr result (λ e. IsNotBegun D.shown (owner_of terms.now clock digest.now) disk e.disk e.fault) }
{
    match journal_on(alloc, disk, scan, terms, clock, digest) {
        Err(unopened) => Err(unopened),
        Ok(mut journal) => match journal.reserve(alloc, most) {
            Ok(()) => Ok(journal),
            Err(NoMemory) => Err(Unopened {
                disk: journal.into_disk(),
                fault: OpenFault::NoMemory,
            }),
        },
    }
}

/// The journal on a disk that was scanned. An unformed file is formed.
fn journal_on<D: Disk>(
    alloc: Global,
    disk: D,
    scan: Scanned,
    terms: &Terms,
    clock: u8,
    digest: &[u8; 32],
) -> Result<Journal<D>, Unopened<D>>
    requires claimed { IsTrue (D.shown disk).claimed }
    requires in_order { IsInOrder scan }
    requires undamaged { IsUndamaged scan }
    requires scanned { IfDiskTells (D.shown disk) (λ moments. IsSettled moments.now × IsScan scan moments.now.read) }
    ensures laid { IfOk result (λ j. (reports : List ReportValue)
        → IsFoundOn (D.shown disk) (owner_of terms.now clock digest.now) reports scan
        → IsLaid D.shown (owner_of terms.now clock digest.now) reports disk j) }
    ensures left { IfOk result (λ j. IsNotBegun D.shown (owner_of terms.now clock digest.now) disk j.disk why.NoMemory) }
    ensures err { IfErr result (λ e. IsNotBegun D.shown (owner_of terms.now clock digest.now) disk e.disk e.fault) }
{
    match scan {
        Scanned::Unformed => formed(alloc, disk, terms, clock, digest),
        scan => Ok(Journal::attach(disk, scan)),
    }
}

/// Forms an unformed file.
fn formed<D: Disk>(
    alloc: Global,
    disk: D,
    terms: &Terms,
    clock: u8,
    digest: &[u8; 32],
) -> Result<Journal<D>, Unopened<D>>
    requires claimed { IsTrue (D.shown disk).claimed }
    requires unformed { IfDiskTells (D.shown disk) (λ moments. IsSettled moments.now × IsUnformed moments.now.read) }
    ensures laid { IfOk result (λ j. IsLaid D.shown (owner_of terms.now clock digest.now) [] disk j) }
    ensures err { IfErr result (λ e. IsNotBegun D.shown (owner_of terms.now clock digest.now) disk e.disk e.fault) }
{
    let header = header_for(terms, clock, digest);
    match Journal::form(alloc, disk, &header) {
        Ok(journal) => Ok(journal),
        Err(NotFormed { disk, fault }) => Err(Unopened {
            disk,
            fault: fault_of(fault),
        }),
    }
}

/// A refusal to form, as one to open.
fn fault_of(fault: JournalFault) -> OpenFault
    ensures { result ≡ not_formed fault }
{
    match fault {
        JournalFault::DiskFault => OpenFault::DiskFault,
        _ => OpenFault::NoMemory,
    }
}

/// The header of the journal of a clock: it names the opening prices where the terms are of the second version.
fn header_for(terms: &Terms, clock: u8, digest: &[u8; 32]) -> Header
    ensures header { result ≡ header_of (owner_of terms.now clock digest.now) }
    ensures spelled { IsHeader result }
{
    let opening = match terms.version {
        1 => None,
        _ => Some(terms.opening),
    };
    Header::new(clock as u32, *digest, opening)
}
