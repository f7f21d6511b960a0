//! A journal in a file, of which nothing that was acknowledged is lost at whatever moment the machine stops.
#![tactic(auto)]

mod chunks;
mod faults;
mod headers;
mod heads;
mod hints;
mod journal;
pub mod laws;
mod padding;
mod places;
mod scanning;
mod spellings;
mod steps;

pub use faults::{JournalFault, Mended, NotFormed};
pub use headers::Header;
pub use hints::{Hint, LONGEST_HINT, NoHint};
pub use journal::{Journal, read_payload};
pub use places::{Place, Places};
pub use scanning::{Scanned, scan};
