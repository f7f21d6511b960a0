//! Tests of `settlement`, which no clause of it says: that calls succeed where there is memory, and outcomes that were worked by hand.
#![tactic(auto)]

#[cfg(test)]
mod tests;
