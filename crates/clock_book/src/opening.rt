//! A clock that is read from a journal.
ghost use Rattle.std.specs.Prelude.{◌≡◌, ◌≤◌, [], IsTrue, IfOk, IfErr, OnOk};
ghost use Rattle.house_io.specs.Disks.{IsLater, IfDiskTold};
ghost use Rattle.lot_base.specs.Demands.{IsDemand};
ghost use Rattle.clock.specs.Reports.{with_report, applied};
ghost use Rattle.clock.specs.Judging.{judgement_of};
ghost use Rattle.clock.specs.declared.judging.Judgement.TheVariants.{Take};
ghost use Rattle.recovery.specs.Journaled.{owner_of};
ghost use Rattle.clock_book.specs.Opening.{history_of, IsHistoryOf, ReadsClock, Takes, CountsFaults, IsSyncedBy};
ghost use Rattle.clock_book.specs.Opened.{ReadsBook, KeepsRoom, IsFoundOn};

use crate::faults::OpenFault;
use crate::repeats::next_again;
use clock::{Clock, Judgement};
use demand_set::Report;
use house_io::Disk;
use lot_base::Terms;
use recovery::{Next, Reports};
use report_journal::Scanned;
use std::alloc::Global;

/// The clock of the reports that a journal's file stands for. It syncs first, and changes no byte. Each report is taken as it is
/// read.
pub fn read_clock<D: Disk>(
    alloc: Global,
    disk: &mut D,
    terms: &Terms,
    clock: u8,
    digest: &[u8; 32],
) -> Result<Clock, OpenFault>
    requires { clock ≤ terms.now.bidders }
    ensures read { IfDiskTold (D.shown disk.old) (D.shown disk.new)
        (λ before _. ReadsClock (owner_of terms.now clock digest.now) before.now.read result) }
    ensures history { IfOk result (λ c. IsHistoryOf (owner_of terms.now clock digest.now) c.history) }
    ensures synced { IfDiskTold (D.shown disk.old) (D.shown disk.new) (IsSyncedBy result) }
    ensures later { IsLater (D.shown disk.old) (D.shown disk.new) }
    ensures faults { CountsFaults (D.shown disk.old).faults (D.shown disk.new).faults result }
{
    let taken = Clock::new(alloc, terms, clock)?;
    match read_into(alloc, disk, taken, terms, clock, digest) {
        Err(fault) => Err(fault),
        Ok((taken, _scan)) => Ok(taken),
    }
}

/// The clock with the reports that a journal's file stands for, and what the scan of the file found. The clock had none before.
pub(crate) fn read_into<D: Disk>(
    alloc: Global,
    disk: &mut D,
    empty: Clock,
    terms: &Terms,
    clock: u8,
    digest: &[u8; 32],
) -> Result<(Clock, Scanned), OpenFault>
    requires number { clock ≤ terms.now.bidders }
    requires empty { empty.history ≡ history_of (owner_of terms.now clock digest.now) [] }
    ensures read { IfDiskTold (D.shown disk.old) (D.shown disk.new)
        (λ before _. ReadsBook (owner_of terms.now clock digest.now) before.now.read result) }
    ensures history { IfOk result (λ r. IsHistoryOf (owner_of terms.now clock digest.now) r.0.history) }
    ensures found { IfOk result (λ r. IsFoundOn (D.shown disk.new) (owner_of terms.now clock digest.now)
        r.0.history.reports r.1) }
    ensures room { IfOk result (λ r. KeepsRoom empty r.0) }
    ensures synced { IfDiskTold (D.shown disk.old) (D.shown disk.new) (IsSyncedBy result) }
    ensures later { IsLater (D.shown disk.old) (D.shown disk.new) }
    ensures faults { CountsFaults (D.shown disk.old).faults (D.shown disk.new).faults result }
{
    let mut taken = empty;
    let mut reader = Reports::begin(alloc, disk, terms, clock, digest)?;
    'reports: loop {
        if next_again(alloc, terms, &mut taken, &mut reader)? {
            continue;
        }
        match reader.next(alloc, disk)? {
            Next::Report(report) => match take(alloc, &mut taken, report, reader.given()) {
                Ok(()) => continue,
                Err(fault) => return Err(fault),
            },
            Next::Broken(broken) => return Err(OpenFault::Broken(broken)),
            Next::End => return Ok((taken, reader.into_scan())),
        }
    }
}

/// Takes the report of a record, if the clock takes it.
fn take(alloc: Global, clock: &mut Clock, report: Report, number: u32) -> Result<(), OpenFault>
    requires { IsDemand clock.old.history.terms.goods report.demand }
    ensures taken { OnOk result (clock.new.history ≡ with_report clock.old.history report) }
    ensures spare { OnOk result (clock.new ≡ applied clock.old report) }
    ensures judged { OnOk result (judgement_of clock.old.history report ≡ Take) }
    ensures refused { IfErr result (Takes clock.old.history report number) }
{
    let judgement = clock.judge(report.bidder, report.round, &report.demand);
    let Judgement::Take = judgement else {
        return Err(OpenFault::NotAcceptable { number, judgement });
    };
    match clock.apply(alloc, report) {
        Ok(()) => Ok(()),
        Err(_) => Err(OpenFault::NoMemory),
    }
}
