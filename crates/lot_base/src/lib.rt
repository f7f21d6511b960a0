//! Goods, bundles, prices and terms: what every layer of the auction house speaks of.
#![tactic(auto)]

pub mod auction_terms;
pub mod bundles;
pub mod laws;
pub mod limits;
pub mod memory;
pub mod phases;
pub mod pricing;
pub mod raw;
pub mod sequences;
pub mod supply;
pub mod tables;

pub use auction_terms::{Terms, TermsFault};
pub use bundles::{Bundle, compare, quantity_in};
pub use memory::NoMemory;
pub use phases::Phase;
pub use pricing::{Prices, cost};
pub use raw::{RawDemand, RawReport};
pub use sequences::Sequence;
pub use supply::{GoodSet, Goods, GoodsFault};
pub use tables::{Excess, LeastTable};
