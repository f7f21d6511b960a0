//! What no clause of clock_family says: that a house is opened where there is memory, and answers that were worked by hand.
#![tactic(auto)]

#[cfg(test)]
mod tests;
