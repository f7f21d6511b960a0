//! Tests of `valuation` by what it makes public: files with the answers that the format names, read by hand, and demands.
#![tactic(auto)]

#[cfg(test)]
mod tests;
