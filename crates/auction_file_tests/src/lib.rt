//! Files with each fault, and what good ones say. The tests of auction_file that need only what is public.
#![tactic(auto)]

#[cfg(test)]
mod tests;
