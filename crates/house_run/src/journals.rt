//! The journals of an auction's clocks.
ghost use Rattle.std.specs.Prelude.{◌≡◌, ◌≤◌, ◌+◌, ℕ, List, IfOk, IfErr, OnOk, Err, string_bytes};
ghost use Rattle.house_io.specs.Shelves.{with_name};
ghost use Rattle.clock.specs.Reports.{histories};
ghost use Rattle.house_run.specs.Journals.{AreFromJournals, IsReadAt};
ghost use Rattle.house_run.specs.Needs.{journal_name};
ghost use Rattle.house_run.specs.Seen.{shelf_seen};
ghost use Rattle.house_run.specs.Steps.{EndsAtJournal, IsSteady, IsUnread, OnlySyncs, SyncsFirst, SyncsJournals};

use clock::Clock;
use clock_book::{OpenFault, read_clock};
use house_io::{Refusal, Shelf};
use lot_base::Terms;
use std::alloc::{AllocError, Global};

/// Why the journals are not all read.
#[derive(Clone, Copy, Debug)]
pub(crate) struct Unread {
    /// The first clock whose journal is not read.
    pub clock: u8,
    /// Why it is not.
    pub fault: OpenFault,
}

/// The clocks of an auction in the order of their numbers, each from its journal.
pub(crate) fn read_clocks<H: Shelf>(
    alloc: Global,
    shelf: &mut H,
    journals: &str,
    terms: &Terms,
    digest: &[u8; 32],
) -> Result<Vec<Clock>, Unread>
    ensures read { IfOk result (λ clocks. AreFromJournals (H.files shelf.new) terms.now digest.now journals.now (terms.now.bidders + 1)
        (histories clocks.items)) }
    ensures done { IfOk result (λ _. SyncsFirst journals.now (terms.now.bidders + 1) (shelf_seen H.Shelf shelf.old shelf.new)) }
    ensures steady { IfOk result (λ _. IsSteady (shelf_seen H.Shelf shelf.old shelf.new)) }
    ensures clock { IfErr result (λ unread. unread.clock ≤ terms.now.bidders) }
    ensures ends { IfErr result (λ unread. EndsAtJournal (shelf_seen H.Shelf shelf.old shelf.new) terms.now digest.now journals.now
        unread.clock unread.fault) }
    ensures synced { IfErr result (λ _. SyncsJournals journals.now (terms.now.bidders + 1) (shelf_seen H.Shelf shelf.old shelf.new)) }
{
    let count = terms.bidders + 1;
    let mut clocks = Vec::new(alloc);
    'clocks: for clock in 0..count {
        let read = match read_journal(alloc, shelf, journals, terms, clock, digest) {
            Ok(read) => read,
            Err(fault) => return Err(Unread { clock, fault }),
        };
        let Ok(()) = clocks.push(read) else {
            return Err(Unread {
                clock,
                fault: OpenFault::NoMemory,
            });
        };
    }
    Ok(clocks)
}

/// The clock of this number, from its journal.
fn read_journal<H: Shelf>(
    alloc: Global,
    shelf: &mut H,
    journals: &str,
    terms: &Terms,
    clock: u8,
    digest: &[u8; 32],
) -> Result<Clock, OpenFault>
    requires { clock ≤ terms.now.bidders }
    ensures read { IfOk result (λ c. IsReadAt (H.files shelf.new) terms.now digest.now (journal_name journals.now clock) clock c.history) }
    ensures step { OnlySyncs (journal_name journals.now clock) (shelf_seen H.Shelf shelf.old shelf.new) }
    ensures opened { OnOk result (H.opened shelf.new ≡ with_name (journal_name journals.now clock) (H.opened shelf.old)) }
    ensures steady { OnOk result (IsSteady (shelf_seen H.Shelf shelf.old shelf.new)) }
    ensures refused { IfErr result (IsUnread (shelf_seen H.Shelf shelf.old shelf.new) terms.now digest.now (journal_name journals.now clock)
        clock) }
{
    let name = match name_of(alloc, journals, clock) {
        Ok(name) => name,
        Err(_) => return Err(OpenFault::NoMemory),
    };
    read_named(alloc, shelf, &name, terms, clock, digest)
}

/// The name of a clock's journal.
pub(crate) fn name_of(alloc: Global, journals: &str, clock: u8) -> Result<String, AllocError>
    ensures { IfOk result (λ name. string_bytes name ≡ journal_name journals.now clock) }
{
    let tens = clock / 10;
    let ones = clock % 10;
    let name = format!(in alloc; "{journals}/clock-{tens}{ones}.ahj")?;
    Ok(name)
}

/// The clock of the journal of this name, which is opened, synced and read, and closed again.
fn read_named<H: Shelf>(
    alloc: Global,
    shelf: &mut H,
    name: &str,
    terms: &Terms,
    clock: u8,
    digest: &[u8; 32],
) -> Result<Clock, OpenFault>
    requires { clock ≤ terms.now.bidders }
    ensures read { IfOk result (λ c. IsReadAt (H.files shelf.new) terms.now digest.now name.now clock c.history) }
    ensures step { OnlySyncs name.now (shelf_seen H.Shelf shelf.old shelf.new) }
    ensures opened { OnOk result (H.opened shelf.new ≡ with_name name.now (H.opened shelf.old)) }
    ensures steady { OnOk result (IsSteady (shelf_seen H.Shelf shelf.old shelf.new)) }
    ensures refused { IfErr result (IsUnread (shelf_seen H.Shelf shelf.old shelf.new) terms.now digest.now name.now clock) }
{
    let mut disk = match shelf.disk(alloc, name) {
        Ok(disk) => disk,
        Err(Refusal::Failed) => return Err(OpenFault::DiskFault),
        Err(Refusal::NoMemory) => return Err(OpenFault::NoMemory),
    };
    let answer = read_clock(alloc, &mut disk, terms, clock, digest);
    shelf.close_disk(name, disk);
    answer
}
