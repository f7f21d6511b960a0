//! The single steps of a seat at the board.
ghost use Rattle.std.specs.Prelude.{◌≡◌, ◌≢◌, ℕ, ◌%◌, ◌^◌, ◌<◌, ◌++◌, List, [], ◌∷◌, Some};
ghost use Rattle.turn_desk.specs.declared.view.Stage.TheVariants.{Rests, Waits};
ghost use Rattle.turn_desk.specs.Histories.{StartsWith};
ghost use Rattle.turn_desk.specs.Views.{holding, reached, ticket_of};
ghost use Rattle.turn_desk.specs.Steps.{Begins, grown, shown_to, Glances, rested, in_hand, parent, child, witness, both_of, DrawsTicket};

use crate::board::{Board, COUNT, DeskSeat, GAUGE, SERVING, TICKET};
use crate::book::Book;
use crate::rule::{Append, Draw, Glance, Hand, Look, PassOn, Tell, Vouch};

impl<B: Book> Board<B> {
    /// Draws a ticket, and answers the number on it.
    pub(crate) fn draw(&self, seat: &mut DeskSeat<B>) -> u64
        requires desk { seat.old.table_id ≡ self.now.table.shared.table_id }
        requires rests { (seat.old.me.0.stage ≡ Rests) × (0 < seat.old.me.0.seats) }
        ensures same { (seat.new.table_id ≡ seat.old.table_id) × (seat.new.id ≡ seat.old.id) × (seat.new.me.1 ≡ seat.old.me.1) }
        ensures drawn { DrawsTicket seat.old.me.0 result seat.new.me.0 }
    {
        self.table.shared.fetch_add::<Draw>(seat, TICKET, 1)
    }

    /// Reads the number that is served. Where it is the seat's own, its turn begins.
    pub(crate) fn look(&self, seat: &mut DeskSeat<B>) -> u64
        requires desk { seat.old.table_id ≡ self.now.table.shared.table_id }
        requires waits { (n : ℕ) × (seat.old.me.0.stage ≡ Waits n) }
        ensures same { (seat.new.table_id ≡ seat.old.table_id) × (seat.new.id ≡ seat.old.id) }
        ensures own { result ≡ ticket_of seat.old.me.0.stage % 2 ^ 64 → Begins B.history B.origin seat.old.me seat.new.me }
        ensures another { result ≢ ticket_of seat.old.me.0.stage % 2 ^ 64 → seat.new.me ≡ seat.old.me }
    {
        self.table.shared.load::<Look<B>>(seat, SERVING)
    }

    /// Counts the next entry of the book in hand, which becomes the seat's own.
    pub(crate) fn append(&self, seat: &mut DeskSeat<B>)
        requires desk { seat.old.table_id ≡ self.now.table.shared.table_id }
        requires turn { holding seat.old.me.0.stage ≡ 1 }
        requires more { (e : B.Entry) × StartsWith (in_hand B.history seat.old.me.1) (reached seat.old.me.0.stage ++ e ∷ []) }
        ensures same { (seat.new.table_id ≡ seat.old.table_id) × (seat.new.id ≡ seat.old.id) × (seat.new.me.1 ≡ seat.old.me.1) }
        ensures grown { (e : B.Entry) × StartsWith (in_hand B.history seat.old.me.1) (reached seat.old.me.0.stage ++ e ∷ [])
            × (seat.new.me.0 ≡ grown seat.old.me.0 e) }
    {
        self.table.shared.fetch_add::<Append<B>>(seat, COUNT, 1);
    }

    /// Writes the gauge of the book in hand, whose entries are all counted: who glances from now on sees its history.
    pub(crate) fn tell(&self, seat: &mut DeskSeat<B>, gauge: u64)
        requires desk { seat.old.table_id ≡ self.now.table.shared.table_id }
        requires turn { holding seat.old.me.0.stage ≡ 1 }
        requires book { (b : B) × (B.history b ≡ reached seat.old.me.0.stage) × (seat.old.me.0.origin ≡ Some (B.origin b))
            × (gauge ≡ B.gauge (B.origin b) (B.history b)) }
        ensures same { (seat.new.table_id ≡ seat.old.table_id) × (seat.new.id ≡ seat.old.id) }
        ensures told { seat.new.me ≡ (shown_to seat.old.me.0, seat.old.me.1) }
    {
        self.table.shared.store::<Tell>(seat, GAUGE, gauge);
    }

    /// Reads the gauge of the history that is shown at this moment.
    pub(crate) fn glance(&self, seat: &mut DeskSeat<B>) -> u64
        requires desk { seat.old.table_id ≡ self.now.table.shared.table_id }
        requires rests { (seat.old.me.0.stage ≡ Rests) × (0 < seat.old.me.0.seats) }
        ensures same { (seat.new.table_id ≡ seat.old.table_id) × (seat.new.id ≡ seat.old.id) × (seat.new.me.1 ≡ seat.old.me.1) }
        ensures glances { Glances B.gauge seat.old.me.0 result seat.new.me.0 }
    {
        self.table.shared.load::<Glance<B>>(seat, GAUGE)
    }

    /// Ends the turn, with the book in hand on the board again, and answers its number.
    pub(crate) fn pass_on(&self, seat: &mut DeskSeat<B>) -> u64
        requires desk { seat.old.table_id ≡ self.now.table.shared.table_id }
        requires turn { holding seat.old.me.0.stage ≡ 1 }
        requires book { (b : B) × (seat.old.me.1 ≡ (0, Some b) ∷ []) × (B.history b ≡ reached seat.old.me.0.stage)
            × (seat.old.me.0.origin ≡ Some (B.origin b)) }
        requires told { seat.old.me.0.seen ≡ reached seat.old.me.0.stage }
        ensures same { (seat.new.table_id ≡ seat.old.table_id) × (seat.new.id ≡ seat.old.id) }
        ensures rests { seat.new.me ≡ (rested seat.old.me.0, []) }
    {
        self.table.shared.fetch_add::<PassOn>(seat, SERVING, 1)
    }

    /// Splits a new seat from this one.
    pub(crate) fn split(&self, seat: &mut DeskSeat<B>) -> DeskSeat<B>
        requires desk { seat.old.table_id ≡ self.now.table.shared.table_id }
        requires made { (0 < seat.old.me.0.made) × (seat.old.me.0.made < 64) × (0 < seat.old.me.0.seats) }
        ensures same { (seat.new.table_id ≡ seat.old.table_id) × (seat.new.id ≡ seat.old.id) × (seat.new.me.1 ≡ seat.old.me.1) }
        ensures other { (result.table_id ≡ seat.old.table_id) × (result.me.1 ≡ []) }
        ensures views { (seat.new.me.0 ≡ parent seat.old.me.0) × (result.me.0 ≡ child seat.old.me.0) }
    {
        self.table.shared.split_seat::<Hand>(seat)
    }

    /// Splits a seat from this one that stands for none, and has seen what this one has.
    pub(crate) fn vouch(&self, seat: &mut DeskSeat<B>) -> DeskSeat<B>
        requires desk { seat.old.table_id ≡ self.now.table.shared.table_id }
        ensures same { (seat.new.table_id ≡ seat.old.table_id) × (seat.new.id ≡ seat.old.id) × (seat.new.me ≡ seat.old.me) }
        ensures other { (result.table_id ≡ seat.old.table_id) × (result.me ≡ (witness seat.old.me.0, [])) }
    {
        self.table.shared.split_seat::<Vouch>(seat)
    }

    /// Joins another seat into this one.
    pub(crate) fn join(&self, seat: &mut DeskSeat<B>, other: DeskSeat<B>)
        requires desk { (seat.old.table_id ≡ self.now.table.shared.table_id) × (other.table_id ≡ self.now.table.shared.table_id) }
        requires part { 0 < seat.old.me.0.seats }
        requires rests { (other.me.0.stage ≡ Rests) × (other.me.1 ≡ []) }
        ensures same { (seat.new.table_id ≡ seat.old.table_id) × (seat.new.id ≡ seat.old.id) × (seat.new.me.1 ≡ seat.old.me.1) }
        ensures both { seat.new.me.0 ≡ both_of seat.old.me.0 other.me.0 }
    {
        self.table.shared.join_seat::<Hand>(seat, other);
    }
}
