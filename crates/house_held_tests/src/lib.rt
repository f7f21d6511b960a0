//! That a house fills rounds of different clocks at once, and that all its doors are served at once, which no clause says: tests in which a
//! disk is held until something has happened on another clock, and each session until those at all other doors have begun.
#![tactic(auto)]

#[cfg(test)]
mod crowds;
#[cfg(test)]
mod flags;
#[cfg(test)]
mod held;
