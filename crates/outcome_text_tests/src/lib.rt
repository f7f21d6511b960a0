//! Texts of outcomes against texts that were written by hand. The tests of outcome_text that need only what is public.
#![tactic(auto)]

#[cfg(test)]
mod tests;
