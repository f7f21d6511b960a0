//! Tests of `lyapunov`: tables and their excess, worked by hand.
#![tactic(auto)]

#[cfg(test)]
mod tests;
