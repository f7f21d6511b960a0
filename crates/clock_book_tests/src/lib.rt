//! What no clause of clock_book says: files that were written by hand, and that its calls answer with ample memory.
#![tactic(auto)]

#[cfg(test)]
mod books;
#[cfg(test)]
mod tests;
