//! A log of the shelf.
ghost use Rattle.std.specs.Prelude.{◌≡◌, ℕ, List, Err, OnOk};
ghost use Rattle.house_io.specs.Faults.{Rose};
ghost use Rattle.house_io.specs.Shelves.{with_name};
ghost use Rattle.house_run.specs.Reading.{ReadsLogAt};
ghost use Rattle.house_run.specs.Seen.{shelf_seen};
ghost use Rattle.house_run.specs.Steps.{OnlyReads};

use clock::Clock;
use house_io::{Refusal, Shelf};
use lot_base::Terms;
use report_log::{LogFault, read_source};
use std::alloc::Global;

/// The clock of all bidders after the reports of a named log, whose source is taken back.
pub(crate) fn read_log<H: Shelf>(
    alloc: Global,
    terms: &Terms,
    shelf: &mut H,
    name: &str,
) -> Result<Clock, LogFault>
    ensures read { ReadsLogAt terms.now result (shelf_seen H.Shelf shelf.old shelf.new) name.now }
    ensures failed { result ≡ Err LogFault.Failed → Rose (H.faults shelf.old name.now) (H.faults shelf.new name.now) }
    ensures quiet { (result ≡ Err LogFault.Failed → ⊥) → (other : List ℕ) → H.faults shelf.new other ≡ H.faults shelf.old other }
    ensures reads { OnlyReads name.now (shelf_seen H.Shelf shelf.old shelf.new) }
    ensures opened { OnOk result (H.opened shelf.new ≡ with_name name.now (H.opened shelf.old)) }
{
    let mut source = match shelf.source(alloc, name) {
        Ok(source) => source,
        Err(Refusal::Failed) => return Err(LogFault::Failed),
        Err(Refusal::NoMemory) => return Err(LogFault::NoMemory),
    };
    let answer = read_source(alloc, terms, &mut source);
    shelf.close_source(name, source);
    answer
}
