//! What is likely to be offered next at a desk: who waits for a turn has left it in a note.
ghost use Rattle.lot_base.specs.Demands.{IsDemand};

use crate::house_books::HouseBook;
use demand_set::Demand;
use house_io::Disk;
use lot_base::Terms;
use report_journal::{Hint, LONGEST_HINT};
use report_wire::entry_to;
use turn_desk::{Desk, LONGEST_NOTE};

/// The quantities of a report that fills a note: eight bytes stand before them, and each takes two.
const MOST_NOTED: usize = (LONGEST_NOTE - 8) / 2;

/// Leaves the payload of a report in a note, and answers the note's number. A payload that is longer than a note is left out.
pub(crate) fn leave_payload<D: Disk>(
    desk: &Desk<HouseBook<D>>,
    terms: &Terms,
    bidder: u8,
    round: u32,
    demand: &Demand,
) -> u64
    requires { IsDemand terms.now.goods demand.now }
{
    let mut note = [0; LONGEST_NOTE];
    let quantities = demand.quantities();
    let mut length = 0;
    if quantities.len() <= MOST_NOTED {
        length = entry_to(bidder, round, terms.goods.count(), quantities, &mut note) as usize;
    }
    desk.leave_note(&note, length)
}

/// The note after that of a thread which has the turn.
#[derive(Drop)]
pub(crate) struct NoteBehind<'a, D: Disk> {
    /// Where the notes are left.
    pub(crate) desk: &'a Desk<HouseBook<D>>,
    /// The number of the thread's own note.
    pub(crate) number: u64,
}

impl<'a, D: Disk> Hint for NoteBehind<'a, D> {
    ghost says = { λ hint next. Unit {0} };

    fn next(&self, into: &mut [u8; LONGEST_HINT]) -> usize {
        let mut note = [0; LONGEST_NOTE];
        let length = self.desk.next_note(self.number, &mut note);
        into[..length].copy_from_slice(&note[..length]);
        length
    }
}
