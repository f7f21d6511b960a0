//! What no clause says: that calls succeed where there is memory, and outcomes that were worked by hand.

// What the others stand on: terms, reports and clocks; what of an outcome is compared.
mod clocks;
mod outcomes;

// Auctions that settle: of two units; of one to six goods with a ceiling of 100; at the greatest numbers.
mod ceiling_of_100;
mod greatest;
mod two_units;

// Auctions that do not settle, and the clocks that have a row.
mod unsettled;
