//! The real forms: files that are named relative to the working directory, standard output, and TCP. They count their faults and
//! tell no content.
mod closing;
pub mod file_disk;
pub mod folder_disk;
pub mod folder_shelf;
pub mod folder_source;
pub mod locks;
mod opening;
mod reporting;
pub mod streams;
pub mod tcp;
