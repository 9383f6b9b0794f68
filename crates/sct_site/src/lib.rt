//! One site of a group: it takes messages, cuts deltas for other sites and accepts theirs. The history of a site is its
//! arrivals in the order in which they came. That list exists only in proofs, and only grows. A thread that has seen a
//! beginning of it can pass that on to other threads.
#![tactic(auto)]

mod answers;
mod history;
pub mod laws;
mod ranges;
mod rule;
mod site_core;
mod track;

pub use answers::{Accepted, Took};
pub use history::History;
pub use ranges::{LogRange, entries_in};
pub use site_core::SiteCore;
pub use track::Track;
