//! A ticket lock with a history: threads that hold passes take a book in turn, append entries to it, and give it back.
//! Each taker is handed a history that begins with all that its pass has seen and heard of, and each pass knows which entries are its own.
#![tactic(auto)]

mod bells;
mod board;
mod book;
mod desk;
pub mod laws;
mod notes;
mod rule;
mod shared;
mod steps;
mod turns;
mod view;

pub use book::Book;
pub use desk::{Desk, NotMade, Pass, Witness};
pub use notes::LONGEST_NOTE;
pub use shared::{desk_may_be_shared, desk_may_move, pass_may_move, witness_may_move};
