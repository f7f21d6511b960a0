//! What the house keeps over many lives: laws that follow from what the top call promises, and a call of it as they speak of it.
#![tactic(auto)]

pub mod laws;
mod living;

pub use living::live;
