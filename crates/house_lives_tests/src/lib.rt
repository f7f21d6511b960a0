//! What no clause of house_lives says: that the premises of its laws are met by a house in memory that is killed and started again.
#![tactic(auto)]

#[cfg(test)]
mod tests;
