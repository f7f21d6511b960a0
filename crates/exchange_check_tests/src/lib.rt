//! Tests of `exchange_check` by what it makes public: tables with their verdicts.
#![tactic(auto)]

#[cfg(test)]
mod tests;
