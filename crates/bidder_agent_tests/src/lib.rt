//! What no clause of bidder_agent says: that an agent answers where there is memory, and talks that were worked by hand.
#![tactic(auto)]

#[cfg(test)]
mod tests;
