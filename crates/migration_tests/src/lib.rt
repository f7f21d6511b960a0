//! What no clause of migration says: that journals are moved where there is memory, and answers that were worked by hand.
#![tactic(auto)]

#[cfg(test)]
mod tests;
