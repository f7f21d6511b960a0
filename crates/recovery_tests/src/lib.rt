//! What no clause of recovery says: files that were written by hand, and that its calls answer with ample memory.
#![tactic(auto)]

#[cfg(test)]
mod tests;
