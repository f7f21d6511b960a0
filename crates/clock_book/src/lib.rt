//! A clock whose reports stand in a journal.
#![tactic(auto)]

pub mod books;
mod entries;
pub mod faults;
pub mod laws;
mod noted;
pub mod opening;
mod origins;
mod payloads;
pub mod repeats;
pub mod shared;
pub mod starting;

pub use books::ClockBook;
pub use entries::{Entry, Note, Since};
pub use faults::OpenFault;
pub use opening::read_clock;
pub use origins::Origin;
pub use repeats::take_again;
pub use shared::book_may_move;
pub use starting::Unopened;
