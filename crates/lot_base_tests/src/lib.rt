//! Tests of `lot_base`: the limits at their edges, and each call once.
#![tactic(auto)]

#[cfg(test)]
mod tests;
