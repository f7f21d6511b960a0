//! What a person is told of how a run ended: one or two lines, from the end and the words alone.
#![tactic(auto)]

mod advising;
mod auction_faults;
mod clock_ends;
mod files;
mod forms;
mod journal_faults;
mod names;
mod refusals;
mod values_faults;

pub use advising::advice;
