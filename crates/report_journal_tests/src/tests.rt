//! What no clause says: the calls answer with ample memory, the format's bytes, and what is left at each stop.

// What the others stand on.
mod fixtures;

// What is written and found again; files that are cut or altered; calls that fail.
mod beside;
mod faults;
mod hostile;
mod written;
