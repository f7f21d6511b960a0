//! The forms in memory, which stand in for the outside in tests and in proofs: `Sure..` never fail, and of `List..` chosen
//! calls fail.
mod addresses;
mod failing;
mod given_back;
pub mod list;
pub mod list_disk;
pub mod list_link;
pub mod list_net;
pub mod list_shelf;
pub mod recorded_file;
mod rows;
mod shelved;
pub mod sure;
pub mod sure_disk;
pub mod sure_link;
pub mod sure_net;
pub mod sure_shelf;
