//! The table of a desk: four words and the slot of the book. It opens with one seat, and closes with one that stands for all.
ghost use Rattle.std.specs.Prelude.{◌≡◌, List, [], ◌∷◌, IfOk, IfErr, ◌<◌};
ghost use Rattle.turn_desk.specs.Views.{founder};
ghost use Rattle.turn_desk.specs.Steps.{Ends};
ghost use Rattle.turn_desk.specs.declared.view.Stage.TheVariants.{Rests};

use crate::bells::Bells;
use crate::book::Book;
use crate::notes::Notes;
use crate::rule::Turns;
use crate::view::View;
use atomic_table::{Refused, Seat, Table};
use std::alloc::Global;
use std::snapshot::Snapshot;

/// The word of the next ticket.
pub(crate) const TICKET: usize = 0;

/// The word of the ticket that is served.
pub(crate) const SERVING: usize = 1;

/// The word of the number of entries.
pub(crate) const COUNT: usize = 2;

/// The word of the gauge.
pub(crate) const GAUGE: usize = 3;

/// The slot of the book.
pub(crate) const BOOK: usize = 0;

/// A seat at the table, with the view of the desk that it has.
pub type DeskSeat<B> = Seat<Option<B>, View<<B as Book>::Entry, <B as Book>::Origin>>;

/// The table of a desk, with its four words and its one slot.
pub(crate) struct Board<B: Book> {
    /// Its words: the next ticket, the one that is served, the number of entries, the gauge. Its slot: the book, None while a turn has it.
    pub(crate) table: Table<Option<B>, View<B::Entry, B::Origin>, Snapshot<B>, Turns<B>, Global>,
    /// Where threads sleep until their turn comes. No clause speaks of it.
    pub(crate) bells: Bells,
    /// What threads that are about to wait leave. No clause speaks of it.
    pub(crate) notes: Notes,
    ghost sized: { (table.shared.table_id.words ≡ 4) × (table.shared.table_id.slots ≡ 1) },
}

impl<B: Book> Board<B> {
    /// A board with this book on it, and its first seat.
    pub(crate) fn open(alloc: Global, book: B) -> Result<(Board<B>, DeskSeat<B>), B>
        ensures key { IfOk result (λ r. r.0.table.shared.key.value ≡ book) }
        ensures seat { IfOk result (λ r. (r.1.table_id ≡ r.0.table.shared.table_id)
            × (r.1.me ≡ (founder (B.history book) (B.origin book), []))) }
        ensures err { IfErr result (λ b. b ≡ book) }
    {
        let about = Snapshot::of(&book);
        let count = book.length();
        let gauge = book.gauge();
        let mut slots = Vec::new(alloc);
        if let Err(failed) = slots.push(Some(book)) {
            slots.destroy_empty();
            return Err(failed.value.unwrap());
        }
        match Table::new(alloc, &[0, 0, count, gauge], slots, &about) {
            Ok((table, seat)) => {
                let bells = Bells::new();
                let notes = Notes::new();
                let board = Board {
                    table,
                    bells,
                    notes,
                };
                Ok((board, seat))
            }
            Err(Refused { mut slots }) => {
                let last = slots.pop();
                slots.destroy_empty();
                Err(last.unwrap().unwrap())
            }
        }
    }

    /// The book, once no thread shares the board any more.
    pub(crate) fn shut(self, seat: DeskSeat<B>) -> B
        requires desk { seat.table_id ≡ self.table.shared.table_id }
        requires all { (seat.me.0.stage ≡ Rests) × (seat.me.0.seats ≡ seat.me.0.made) × (0 < seat.me.0.made) }
        ensures { Ends B.history B.origin self.table.shared.key.value seat.me.0 result }
    {
        let Board {
            table,
            bells: _,
            notes: _,
        } = self;
        let mut closed = table.close_with(seat);
        let book = closed.take(BOOK);
        closed.free();
        book.unwrap()
    }
}
