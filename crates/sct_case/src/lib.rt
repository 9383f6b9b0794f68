//! The cases of one transfer: its findings, its status and the statuses of its recalls.
#![tactic(auto)]

mod cases;
mod contradictions;
mod differ;
mod each_recall;
mod fault;
mod finding;
pub mod laws;
mod recall_order;
mod recalls;
mod said;
mod status;
mod words;

pub use cases::{findings, recall_status, transfer_status};
pub use each_recall::recall_statuses;
pub use fault::CaseFault;
pub use finding::{Finding, copy_findings};
pub use recalls::recall_status_by;
pub use status::{RecallStatus, Status};
pub use words::StatusWord;
