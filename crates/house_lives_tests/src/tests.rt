//! Lives of a house in memory: at each call on a journal a house is killed and started again, one of three lives is settled, and it is carried
//! to a newer auction file and lives on.

// What the others stand on: a shelf with the auction and its journals, one run of the program over it, and the frames of two bidders.
mod frames;
mod runs;
mod shelves;

// A house that is killed at each call in turn, one of three lives, and the same one that is moved.
mod kills;
mod moved_lives;
mod three_lives;
