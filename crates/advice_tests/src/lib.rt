//! What no clause of advice says: the texts, where there is memory.
#![tactic(auto)]

#[cfg(test)]
mod tests;
