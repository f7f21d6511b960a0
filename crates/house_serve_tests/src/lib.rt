//! What no clause of house_serve says: that sessions answer where there is memory, and talks that were worked by hand.
#![tactic(auto)]

#[cfg(test)]
mod doors;
#[cfg(test)]
mod houses;
#[cfg(test)]
mod tests;
