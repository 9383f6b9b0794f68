//! All answers of a set of messages: the status of each transfer and of each recall, the
//! findings, and the totals of each bank.
#![tactic(auto)]

mod batch;
mod build;
mod by_transfer;
mod case;
mod evaluation;
mod filed_archive;
pub mod laws;
mod listed;
mod messages_text;
mod status_text;
mod sums;
mod tables;
mod totals;
mod totals_text;
mod view;
mod words;

pub use filed_archive::FiledArchive;
pub use totals::Totals;
pub use view::{Applied, View};
