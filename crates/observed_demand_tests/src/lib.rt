//! Tests of `observed_demand` over clocks at their limits.
#![tactic(auto)]

#[cfg(test)]
mod tests;
