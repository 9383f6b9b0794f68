//! What is done in the name of banks: which messages they may send, and what is shown to them of a set of messages.
//!
//! A client stands for some banks. [`verdict`] says whether it may send a message in their name. Of the messages held it is
//! shown those on transfers that are theirs ([`is_theirs`]). It has the answers of a hub that holds what is visible to them, and nothing else.
//! The hub's own report ([`report_rows`]) is found in the same way as theirs.
#![tactic(auto)]

mod banks;
mod by_bank;
mod filed;
pub mod laws;
mod listing;
mod permission;
mod report;
mod showing;
mod theirs;

pub use banks::is_one_of;
pub use by_bank::{ByBank, file_banks, no_banks_filed};
pub use filed::{ByTransfer, file_all, none_filed};
pub use listing::read_banks;
pub use permission::{Permission, verdict};
pub use report::{report_rows, report_rows_for};
pub use showing::{bank_text_for, messages_text_for, transfer_text_for};
pub use theirs::is_theirs;
