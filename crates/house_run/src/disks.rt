//! The journals of an auction's clocks, all open at once.
ghost use Rattle.std.specs.Prelude.{◌≡◌, ◌<◌, ◌≤◌, ℕ, List, length, IfOk, IfErr};
ghost use Rattle.house_run.specs.Disks.{AreGivenBack, AreNames, AreNotOpen, AreOpen, AreOpened, fault_of};
ghost use Rattle.house_run.specs.Seen.{shelf_seen};

use crate::journals::{Unread, name_of};
use clock_book::OpenFault;
use house_io::{Refusal, Shelf};
use std::alloc::{AllocError, Global};
use std::collections::VecDeque;

/// The names of the journals of so many clocks, in order.
pub(crate) fn journal_names(
    alloc: Global,
    journals: &str,
    count: u8,
) -> Result<Vec<String>, AllocError>
    ensures names { IfOk result (λ names. AreNames journals.now names.items) }
    ensures count { IfOk result (λ names. length names.items ≡ count) }
{
    let mut names = Vec::new(alloc);
    for clock in 0..count {
        let name = name_of(alloc, journals, clock)?;
        names.push(name)?;
    }
    Ok(names)
}

/// Opens the journals of these names, in order. Where one is not opened, those before it are closed again.
pub(crate) fn open_journals<H: Shelf>(
    alloc: Global,
    shelf: &mut H,
    names: &[String],
) -> Result<Vec<H::Disk>, Unread>
    requires some { 0 < length names.now }
    requires few { length names.now ≤ 13 }
    ensures count { IfOk result (λ disks. length disks.items ≡ length names.now) }
    ensures opened { IfOk result (λ _. AreOpened names.now (H.opened shelf.new)) }
    ensures open { IfOk result (λ disks. (journals : List ℕ) → AreNames journals names.now
        → AreOpen H.Disk.Disk.shown journals disks.items (shelf_seen H.Shelf shelf.old shelf.new)) }
    ensures refused { IfErr result (λ unread. (journals : List ℕ) → AreNames journals names.now
        → AreNotOpen journals (length names.now) unread.clock unread.fault (shelf_seen H.Shelf shelf.old shelf.new)) }
{
    let Ok(mut disks) = Vec::with_capacity(alloc, names.len()) else {
        return Err(Unread {
            clock: 0,
            fault: OpenFault::NoMemory,
        });
    };
    for (clock, name) in names.iter().enumerate() {
        let refusal = match shelf.disk(alloc, name) {
            Ok(disk) => {
                disks.push_reserved(disk);
                continue;
            }
            Err(refusal) => refusal,
        };
        close_journals(shelf, &names[..clock], disks);
        return Err(Unread {
            clock: clock as u8,
            fault: fault_of(refusal),
        });
    }
    Ok(disks)
}

/// Why a journal that the shelf refuses is not opened.
fn fault_of(refusal: Refusal) -> OpenFault
    ensures { result ≡ fault_of refusal }
{
    match refusal {
        Refusal::Failed => OpenFault::DiskFault,
        Refusal::NoMemory => OpenFault::NoMemory,
    }
}

/// Gives the disks of these journals back, in order. It takes no memory.
pub(crate) fn close_journals<H: Shelf>(shelf: &mut H, names: &[String], disks: Vec<H::Disk>)
    requires count { length disks.items ≡ length names.now }
    requires few { length names.now ≤ 13 }
    requires opened { AreOpened names.now (H.opened shelf.old) }
    ensures { (journals : List ℕ) → AreNames journals names.now
        → AreGivenBack H.Disk.Disk.shown journals disks.items (shelf_seen H.Shelf shelf.old shelf.new) }
{
    let mut rest = VecDeque::from_vec(disks);
    for name in names {
        let disk = rest.pop_front().unwrap();
        shelf.close_disk(name, disk);
    }
    rest.destroy_empty();
}
