//! The desk and its passes.
ghost use Rattle.std.specs.Prelude.{◌≡◌, ℕ, ◌+◌, ◌<◌, ◌≤◌, List, [], ◌∷◌, Some, None, length, IfOk, IfErr, IsSome, IfSome};
ghost use Rattle.turn_desk.specs.declared.view.Stage.TheVariants.{Rests};
ghost use Rattle.turn_desk.specs.declared.notes.TheConstants.{LONGEST_NOTE};
ghost use Rattle.turn_desk.specs.Histories.{StartsWith, StartsWithAll, GoesOn};
ghost use Rattle.turn_desk.specs.Views.{hands_of};
ghost use Rattle.turn_desk.specs.Passes.{known, heard, IsWitness, AreNew, AreAll, Gathers, Closes, PassGlances, at_turn, after_giving};

use crate::board::{Board, DeskSeat};
use crate::book::Book;
use crate::notes::LONGEST_NOTE;
use std::alloc::Global;
use std::marker::Model;
use std::sync::Wait;

/// A ticket lock round a book. It is shared by the threads that own its passes.
pub struct Desk<B: Book> {
    board: Board<B>,
}

impl<B: Book> Model for Desk<B> {
    ghost use Rattle.turn_desk.specs.Passes.{Opened};

    ghost Value = { Opened B };

    ghost view = { λ d. record { id = d.board.table.shared.table_id; book = d.board.table.shared.key.value } };
}

/// The right to take turns at one desk.
pub struct Pass<B: Book> {
    /// Its place among the passes of its desk, from 0. There are at most 64.
    number: u32,
    /// The number of entries at the take, modulo 2^64. 0 at rest.
    count: u64,
    /// Its seat at the table of the desk, with what the pass has seen and appended. It stands for itself alone, and waits for no turn.
    seat: DeskSeat<B>,
}

impl<B: Book> Model for Pass<B> {
    ghost use Rattle.turn_desk.specs.Passes.{Known, IsSteady, known};

    ghost Value = { Known B.Entry B.Origin };

    ghost view = { λ p. known p.seat.table_id p.seat.me.0 };

    ghost invariant = { λ p. IsSteady p.number p.count p.seat.me };
}

/// What a pass had seen of its desk, for another pass to hear. It stands for no pass, and waits for no turn.
pub struct Witness<B: Book> {
    /// A seat at the table of the desk that stands for none.
    seat: DeskSeat<B>,
}

impl<B: Book> Model for Witness<B> {
    ghost use Rattle.turn_desk.specs.Passes.{Witnessed, IsWitness};

    ghost Value = { Witnessed B.Entry };

    ghost view = { λ w. record { desk = w.seat.table_id; seen = w.seat.me.0.seen } };

    ghost invariant = { λ w. IsWitness w.seat.me };
}

impl<B: Book> Drop for Witness<B> {
    fn drop(self) {
        let Witness { seat: _ } = self;
    }
}

impl<B: Book> Witness<B> {
    fn into_seat(self) -> DeskSeat<B>
        ensures seat { (result.table_id ≡ self.desk) × (result.me.0.seen ≡ self.seen) }
        ensures witness { IsWitness result.me }
    {
        let Witness { seat } = self;
        seat
    }
}

/// There was no memory for a desk. The book is handed back.
#[derive(Drop)]
pub struct NotMade<B> {
    pub book: B,
}

impl<B: Book> Drop for Pass<B> {
    fn drop(self) {
        let Pass {
            number: _,
            count: _,
            seat: _,
        } = self;
    }
}

impl<B: Book> Pass<B> {
    /// The place of this pass among those of its desk, from 0.
    pub fn number(&self) -> u32
        ensures { result ≡ self.now.number }
    {
        self.number
    }

    fn into_seat(self) -> DeskSeat<B>
        ensures seat { known result.table_id result.me.0 ≡ self }
        ensures whole { result.me.0.seats ≡ 1 }
        ensures rests { self.turn ≡ None → (result.me.0.stage ≡ Rests) × (result.me.1 ≡ []) }
    {
        let Pass {
            number: _,
            count: _,
            seat,
        } = self;
        seat
    }
}

impl<B: Book> Desk<B> {
    /// Lays this book on a desk, and makes its passes, numbered from 0 in order. 1 to 64 passes can be made.
    pub fn new(alloc: Global, book: B, passes: u32) -> Result<(Desk<B>, Vec<Pass<B>>), NotMade<B>>
        requires { (1 ≤ passes) × (passes ≤ 64) }
        ensures desk { IfOk result (λ r. r.0.book ≡ book) }
        ensures passes { IfOk result (λ r. AreNew passes r.0.id (B.history book) (B.origin book) r.1.items) }
        ensures all { IfOk result (λ r. AreAll r.0.id r.1.items) }
        ensures err { IfErr result (λ r. r.book ≡ book) }
    {
        let Ok(mut list) = Vec::with_capacity(alloc, passes as usize) else {
            return Err(NotMade { book });
        };
        match Board::open(alloc, book) {
            Ok((board, seat)) => {
                let desk = Desk { board };
                list.push_reserved(Pass {
                    number: 0,
                    count: 0,
                    seat,
                });
                for number in 1..passes {
                    let next = desk.split(&mut list[0], number);
                    list.push_reserved(next);
                }
                Ok((desk, list))
            }
            Err(book) => {
                list.destroy_empty();
                Err(NotMade { book })
            }
        }
    }

    /// Waits for the turn, and takes the book.
    pub fn take<T: Wait>(&self, rt: &T, pass: &mut Pass<B>) -> B
        requires desk { pass.old.desk ≡ self.now.id }
        requires rests { pass.old.turn ≡ None }
        ensures goes_on { StartsWith (B.history result) pass.old.seen × StartsWithAll (B.history result) pass.old.also }
        ensures origin { pass.old.origin ≡ Some (B.origin result) }
        ensures turn { pass.new ≡ at_turn pass.old (B.history result) }
    {
        let book = self.board.enter(rt, &mut pass.seat);
        pass.count = book.length();
        book
    }

    /// Gives the book back, with what was appended to it, and passes the turn on.
    pub fn give(&self, pass: &mut Pass<B>, book: B)
        requires desk { pass.old.desk ≡ self.now.id }
        requires turn { IsSome pass.old.turn }
        requires goes_on { IfSome pass.old.turn (λ before. GoesOn before (B.history book)) }
        requires origin { pass.old.origin ≡ Some (B.origin book) }
        ensures given { pass.new ≡ after_giving pass.old (B.history book) }
    {
        let more = book.length().wrapping_sub(pass.count);
        self.board.leave(&mut pass.seat, book, more);
        pass.count = 0;
    }

    /// Reads the gauge of the history as it is at this moment, without a turn: what a pass appends counts from the end of its turn on.
    pub fn glance(&self, pass: &mut Pass<B>) -> u64
        requires desk { pass.old.desk ≡ self.now.id }
        requires rests { pass.old.turn ≡ None }
        ensures { PassGlances B.gauge pass.old result pass.new }
    {
        self.board.glance(&mut pass.seat)
    }

    /// What the pass has seen so far, for other passes to hear: a thread that hands it to another thread, with whatever it tells there, hands
    /// on how far the history was.
    pub fn witness(&self, pass: &mut Pass<B>) -> Witness<B>
        requires desk { pass.old.desk ≡ self.now.id }
        ensures same { pass.new ≡ pass.old }
        ensures witness { result ≡ record { desk = pass.old.desk; seen = pass.old.seen } }
    {
        let seat = self.board.vouch(&mut pass.seat);
        Witness { seat }
    }

    /// Takes in what another pass had seen: the next history that this pass comes to, by a turn or by a glance, begins with it.
    pub fn hear(&self, pass: &mut Pass<B>, witness: Witness<B>)
        requires desk { (pass.old.desk ≡ self.now.id) × (witness.desk ≡ self.now.id) }
        ensures { pass.new ≡ heard pass.old witness.seen }
    {
        self.board.join(&mut pass.seat, witness.into_seat());
    }

    /// Leaves a note of the first `length` of these bytes, for who has the turn before the one that this thread is about to wait for, and
    /// answers its number. Notes are numbered in the order in which they are left, which is mostly that of the turns.
    pub fn leave_note(&self, note: &[u8; LONGEST_NOTE], length: usize) -> u64 {
        self.board.notes.leave(note, length)
    }

    /// Takes the note after that of this number into the buffer, and answers its length: 0 where it is not there. It is a guess at what comes
    /// next, and may say anything: notes are left, written over and read with no turn.
    pub fn next_note(&self, number: u64, into: &mut [u8; LONGEST_NOTE]) -> usize
        ensures { result ≤ LONGEST_NOTE }
    {
        self.board.notes.take(number.wrapping_add(1), into)
    }

    /// Takes the book from a desk that no thread shares any more.
    pub fn close(self, passes: Vec<Pass<B>>) -> B
        requires all { AreAll self.id passes.items }
        ensures { Closes B.history B.origin self.book passes.items result }
    {
        let seat = self.gather(passes);
        let Desk { board } = self;
        board.shut(seat)
    }

    /// A new pass with this number, split from the first.
    fn split(&self, first: &mut Pass<B>, number: u32) -> Pass<B>
        requires desk { first.old.desk ≡ self.now.id }
        requires number { (first.old.made ≡ number) × (0 < number) × (number < 64) }
        ensures first { first.new ≡ record first.old { made = first.old.made + 1 } }
        ensures new { result ≡ record first.old { number = first.old.made; also = []; own = []; turn = None; made = 0 } }
    {
        let seat = self.board.split(&mut first.seat);
        Pass {
            number,
            count: 0,
            seat,
        }
    }

    /// One seat that stands for all these passes.
    fn gather(&self, mut passes: Vec<Pass<B>>) -> DeskSeat<B>
        requires all { AreAll self.now.id passes.items }
        ensures desk { (result.table_id ≡ self.now.id) × (result.me.1 ≡ []) }
        ensures all { Gathers result.me.0 passes.items }
    {
        let mut seat = passes.pop().unwrap().into_seat();
        while let Some(pass) = passes.pop() {
            self.board.join(&mut seat, pass.into_seat());
        }
        passes.destroy_empty();
        seat
    }
}
