//! What no clause of session says: that calls answer where there is memory, and talks that were worked by hand.
#![tactic(auto)]

#[cfg(test)]
mod tests;
