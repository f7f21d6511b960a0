//! What a seat at the desk knows. No value of these types is made: they are plain data of the proofs.
use std::collections::LinkedList;

/// Where a seat stands in the line.
pub enum Stage<E> {
    /// It asks for no turn.
    Rests,
    /// With this ticket.
    Waits(u64),
    /// With this ticket, the history when the turn began, and the entries appended since.
    Holds(u64, LinkedList<E>, LinkedList<E>),
}

/// What a seat knows of the desk and of itself.
pub struct View<E, O> {
    /// Whether it rests, waits for its turn or has it.
    pub stage: Stage<E>,
    /// The history that it has seen.
    pub seen: LinkedList<E>,
    /// What the seats that it took in had seen.
    pub also: LinkedList<LinkedList<E>>,
    /// The entries that it appended, each with its place.
    pub own: LinkedList<(u64, E)>,
    /// The origin of the book. None in a spent one.
    pub origin: Option<O>,
    /// The number of entries of the history when the desk was made.
    pub start: u64,
    /// Its place among the seats that were made, from 0, which is the first seat's.
    pub number: u64,
    /// How many seats it stands for. A spent one has 0.
    pub seats: u64,
    /// How many seats were made, in the one that is split.
    pub made: u64,
}
