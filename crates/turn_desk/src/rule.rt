//! The rule of the desk, and what each step tells the seat that takes it. These types are for the proofs alone.
use crate::book::Book;
use crate::view::View;
use atomic_table::{Join, Play, Split, TableRule};
use std::marker::PhantomData;
use std::snapshot::Snapshot;

/// The rule of a desk whose book at the start is the key.
pub struct Turns<B> {
    book: PhantomData<B>,
}

impl<B: Book> TableRule<Option<B>, View<B::Entry, B::Origin>, Snapshot<B>> for Turns<B> {
    ghost use Rattle.turn_desk.specs.Rule.{KeepsRule};
    ghost use Rattle.turn_desk.specs.Views.{founder};

    ghost holds = { λ key. KeepsRule B.history B.origin B.gauge key.value };

    ghost first = { λ key. founder (B.history key.value) (B.origin key.value) };
}

/// A ticket is drawn.
pub struct Draw;

impl<B, E, O> Play<Option<B>, View<E, O>> for Draw {
    ghost use Rattle.turn_desk.specs.Steps.{drawn};

    ghost then = { drawn };
}

/// The number that is served is read.
pub struct Look<B> {
    book: PhantomData<B>,
}

impl<B: Book> Play<Option<B>, View<B::Entry, B::Origin>> for Look<B> {
    ghost use Rattle.turn_desk.specs.Steps.{looked};

    ghost then = { looked B.history B.origin };
}

/// One entry of the book in hand is counted.
pub struct Append<B> {
    book: PhantomData<B>,
}

impl<B: Book> Play<Option<B>, View<B::Entry, B::Origin>> for Append<B> {
    ghost use Rattle.turn_desk.specs.Steps.{appended};

    ghost then = { appended B.history };
}

/// The gauge of the book in hand is written, and the history that it has reached is shown.
pub struct Tell;

impl<B, E, O> Play<Option<B>, View<E, O>> for Tell {
    ghost use Rattle.turn_desk.specs.Steps.{told};

    ghost then = { told };
}

/// The gauge is read without a turn.
pub struct Glance<B> {
    book: PhantomData<B>,
}

impl<B: Book> Play<Option<B>, View<B::Entry, B::Origin>> for Glance<B> {
    ghost use Rattle.turn_desk.specs.Steps.{glanced};

    ghost then = { glanced B.gauge };
}

/// The turn passes on.
pub struct PassOn;

impl<B, E, O> Play<Option<B>, View<E, O>> for PassOn {
    ghost use Rattle.turn_desk.specs.Steps.{passed};

    ghost then = { passed };
}

/// A seat gives a witness of what it has seen.
pub struct Vouch;

impl<E, O> Split<View<E, O>> for Vouch {
    ghost use Rattle.turn_desk.specs.Steps.{witness};

    ghost left = { λ v. v };

    ghost right = { witness };
}

/// A seat is split in two, or two are joined.
pub struct Hand;

impl<E, O> Split<View<E, O>> for Hand {
    ghost use Rattle.turn_desk.specs.Steps.{parent, child};

    ghost left = { parent };

    ghost right = { child };
}

impl<E, O> Join<View<E, O>> for Hand {
    ghost use Rattle.turn_desk.specs.Steps.{both_of, nobody};

    ghost both = { both_of };

    ghost spent = { nobody };
}
