//! Tests of `award_assembly`, which no clause of it says: that calls succeed where there is memory, and choices that were worked by hand.
#![tactic(auto)]

#[cfg(test)]
mod tests;
