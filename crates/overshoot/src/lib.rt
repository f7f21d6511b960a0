//! Why a clock that has ended has no award: a set of goods whose prices rose too far, or a demand without the exchange property.
#![tactic(auto)]

pub mod exchanging;
pub mod explaining;
pub mod laws;
pub mod shortfalls;

pub use exchanging::{SetVerdict, exchange};
pub use explaining::{Explained, explain};
pub use shortfalls::{greatest, most_short};
