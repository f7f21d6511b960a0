//! What no clause of house_run says: how runs end where there is memory, on words, files and frames that were written by hand.
#![tactic(auto)]

#[cfg(test)]
mod tests;
