//! A journal's file, read as reports.
ghost use Rattle.std.specs.Prelude.{IsTrue, IfOk};
ghost use Rattle.house_io.specs.Disks.{IsLater, IfDiskTold};
ghost use Rattle.report_journal.specs.Scans.{IsScan};
ghost use Rattle.recovery.specs.Journaled.{owner_of};
ghost use Rattle.recovery.specs.Causes.{IsRecovered};
ghost use Rattle.recovery.specs.Streams.{CountsFaults, IsSound, IsSyncedBy};

use crate::faults::{Broken, RecoverFault};
use crate::streaming::{Next, Reports};
use demand_set::Report;
use house_io::Disk;
use lot_base::Terms;
use report_journal::Scanned;
use std::alloc::Global;

/// What a journal's file is read as.
#[derive(Drop)]
pub struct Recovered {
    /// What a scan of the file answers.
    pub scan: Scanned,
    /// The reports before the first broken record.
    pub reports: Vec<Report>,
    /// The first broken record, if there is one.
    pub broken: Option<Broken>,
}

/// Reads a journal's file as the reports of this clock of this auction. It syncs first, and changes no byte.
pub fn read_reports<D: Disk>(
    alloc: Global,
    disk: &mut D,
    terms: &Terms,
    clock: u8,
    digest: &[u8; 32],
) -> Result<Recovered, RecoverFault>
    ensures recovered { IfOk result (λ r. IfDiskTold (D.shown disk.old) (D.shown disk.new)
        (λ before _. IsRecovered (owner_of terms.now clock digest.now) r.reports.items r.broken before.now.read)) }
    ensures scan { IfOk result (λ r. IfDiskTold (D.shown disk.old) (D.shown disk.new) (λ before _. IsScan r.scan before.now.read)) }
    ensures synced { IfDiskTold (D.shown disk.old) (D.shown disk.new) (IsSyncedBy result) }
    ensures later { IsLater (D.shown disk.old) (D.shown disk.new) }
    ensures faults { CountsFaults (D.shown disk.old).faults (D.shown disk.new).faults result }
    // Whatever the disk tells:
    ensures sound { IfOk result (λ r. IsSound (owner_of terms.now clock digest.now) r.scan r.reports.items r.broken) }
{
    let mut reader = Reports::begin(alloc, disk, terms, clock, digest)?;
    let mut reports = Vec::new(alloc);
    'reports: loop {
        let broken = match reader.next(alloc, disk)? {
            Next::Report(report) => {
                reports.push(report)?;
                continue;
            }
            Next::Broken(broken) => Some(broken),
            Next::End => None,
        };
        return Ok(Recovered {
            scan: reader.into_scan(),
            reports,
            broken,
        });
    }
}
