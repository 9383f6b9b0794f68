//! The reasons of rejections, recalls, refusals and returns: the listed codes, and any other code.
#![tactic(auto)]

mod order;
mod other;
mod reasons;
mod uses;

pub use order::reasons_are_exact;
pub use other::OtherCode;
pub use reasons::Reason;
pub use uses::{RecallClass, Use};
