//! Tests of `trial` by what it makes public: whole auctions, with one worker and with three.
#![tactic(auto)]

#[cfg(test)]
mod tests;
