//! Tests of `rationale`, of what no clause of it says: that calls succeed where there is memory, and observations that were worked
//! by hand.
#![tactic(auto)]

#[cfg(test)]
mod tests;
