//! Tests of `turn_desk`: the desk with one thread, with two, with six that wait, and with each number of passes that it can have.
#![tactic(auto)]

#[cfg(test)]
mod readers;
#[cfg(test)]
mod tests;
#[cfg(test)]
mod waits;
