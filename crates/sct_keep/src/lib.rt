//! A set of messages split by a day: what is done is closed, and all that has a tie to what is not done is kept.
//! No transfer of either part has another answer than in the whole set. The laws of `sct_parts` say it of any parts that have nothing in common.
#![tactic(auto)]

mod archives;
mod done;
pub mod laws;
mod marks;
mod splitting;
mod ties;
mod trees;

pub use archives::{Archives, split_archive};
pub use splitting::{KeptAndClosed, split};
