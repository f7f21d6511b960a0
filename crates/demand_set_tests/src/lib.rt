//! Tests of `demand_set`, which no clause of it says: that calls succeed where there is memory, and values that were worked by hand.
#![tactic(auto)]

#[cfg(test)]
mod tests;
