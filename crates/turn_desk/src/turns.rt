//! A whole turn of a seat at the board.
ghost use Rattle.std.specs.Prelude.{◌≡◌, ◌<◌, ◌++◌, List, [], ◌∷◌, Some, None, length};
ghost use Rattle.turn_desk.specs.declared.view.Stage.TheVariants.{Rests};
ghost use Rattle.turn_desk.specs.Histories.{StartsWith, StartsWithAll};
ghost use Rattle.turn_desk.specs.Views.{holding, began, unsteady};
ghost use Rattle.turn_desk.specs.Steps.{TakesTurn, after_turn};

use crate::board::{BOOK, Board, DeskSeat};
use crate::book::Book;
use std::hint::spin_loop;
use std::sync::Wait;

/// How often a thread whose turn is near looks at the number that is served before it sleeps.
const LOOKS: u32 = 200;

/// From how many turns before its own on a thread looks before it sleeps.
const NEAR: u64 = 4;

impl<B: Book> Board<B> {
    /// Waits for the turn, and takes the book out.
    pub(crate) fn enter<T: Wait>(&self, rt: &T, seat: &mut DeskSeat<B>) -> B
        requires desk { seat.old.table_id ≡ self.now.table.shared.table_id }
        requires rests { (seat.old.me.0.stage ≡ Rests) × (0 < seat.old.me.0.seats) × (seat.old.me.1 ≡ []) }
        ensures same { (seat.new.table_id ≡ seat.old.table_id) × (seat.new.id ≡ seat.old.id) × (seat.new.me.1 ≡ (0, None) ∷ []) }
        ensures turn { TakesTurn seat.old.me.0 (B.history result) seat.new.me.0 }
        ensures goes_on { StartsWith (B.history result) seat.old.me.0.seen }
        ensures also { StartsWithAll (B.history result) seat.old.me.0.also }
        ensures origin { seat.old.me.0.origin ≡ Some (B.origin result) }
    {
        let ticket = self.draw(seat);
        let mut looks = 0;
        for _ in rt.forever() {
            let heard = self.bells.heard(ticket);
            let served = self.look(seat);
            if served == ticket {
                return self.table.shared.exchange(seat, BOOK, None).unwrap();
            }
            looks = self.pause(rt, heard, served, ticket, looks);
        }
        unreachable!()
    }

    /// Waits a moment, or sleeps until the turn comes, and answers how often the thread has looked since it slept. It sleeps where
    /// its turn is far, or it has looked for long.
    fn pause<T: Wait>(&self, rt: &T, heard: u64, served: u64, ticket: u64, looks: u32) -> u32 {
        if looks < LOOKS && ticket.wrapping_sub(served) <= NEAR {
            spin_loop();
            return looks + 1;
        }
        self.bells.sleep(rt, ticket, heard);
        0
    }

    /// Puts the book back, makes its last `more` entries the seat's own, shows them, passes the turn on, and wakes the thread whose turn is
    /// next and the one after it: turns that are shorter than a wake would else each wait for one.
    pub(crate) fn leave(&self, seat: &mut DeskSeat<B>, book: B, more: u64)
        requires desk { seat.old.table_id ≡ self.now.table.shared.table_id }
        requires turn { (holding seat.old.me.0.stage ≡ 1) × (unsteady seat.old.me.0.stage ≡ 0) × (seat.old.me.1 ≡ (0, None) ∷ []) }
        requires goes_on { (xs : List B.Entry) × (B.history book ≡ began seat.old.me.0.stage ++ xs) × (length xs ≡ more) }
        requires origin { seat.old.me.0.origin ≡ Some (B.origin book) }
        ensures same { (seat.new.table_id ≡ seat.old.table_id) × (seat.new.id ≡ seat.old.id) × (seat.new.me.1 ≡ []) }
        ensures given { seat.new.me.0 ≡ after_turn seat.old.me.0 (B.history book) }
    {
        let gauge = book.gauge();
        match self.table.shared.exchange(seat, BOOK, Some(book)) {
            None => {}
            Some(_) => unreachable!(),
        }
        for _made in 0..more {
            self.append(seat);
        }
        self.tell(seat, gauge);
        let served = self.pass_on(seat);
        self.bells.ring(served.wrapping_add(1));
        self.bells.ring(served.wrapping_add(2));
    }
}
