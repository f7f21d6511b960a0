//! The top call: from the words of the command line to the text that is written.
#![tactic(auto)]

mod commands;
mod delivery;
mod dialling;
mod disks;
pub mod ends;
mod files;
mod float_texts;
mod giving_back;
mod hosting;
mod house;
mod journals;
mod judge_texts;
pub mod laws;
mod logs;
mod markets;
mod moving_journals;
mod runs;
mod serve_texts;
mod serving_journals;
mod texts;

pub use delivery::answer_usage;
pub use ends::{Ended, File};
pub use runs::run;
