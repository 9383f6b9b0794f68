//! What a site held at a moment, in blocks that are shared with it.
//!
//! [`Blocks`] follow the arrivals of a site. A [`Snapshot`] shares them: it is a value of its own, which may go to another thread while
//! the site goes on.
#![tactic(auto)]

mod blocks;
mod copying;
mod sending;
mod snapshot;

pub use blocks::Blocks;
pub use snapshot::Snapshot;
