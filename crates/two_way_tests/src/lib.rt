//! Tests of `two_way`, which no clause of it says: that calls succeed where there is memory, auctions that were worked by hand, and four
//! hundred that were made and worked out in another language.
#![tactic(auto)]

#[cfg(test)]
mod made;
#[cfg(test)]
mod tests;
