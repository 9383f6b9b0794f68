//! The archive: a set of messages. If two messages of one identity differ, it holds both.
#![tactic(auto)]

mod added;
mod archive;
mod arrivals;
mod bucket;
pub mod buckets;
mod fault;
pub mod laws;
mod sorted_archive;
mod text;

pub use added::Added;
pub use archive::Archive;
pub use fault::SetFault;
pub use sorted_archive::SortedArchive;
