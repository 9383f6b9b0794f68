//! Worlds of sites that take messages, cut deltas and are handed deltas. After every list of events, each site's
//! archive is exactly the set of messages that the site took or accepted.
#![tactic(auto)]

mod answers;
mod event;
mod fault;
mod history;
pub mod laws;
mod settling;
mod world;

pub use answers::Answers;
pub use event::{Event, Outcome, Step};
pub use fault::WorldFault;
pub use history::{AnswersAfter, Ran, answers_after, report_after, run};
pub use settling::settle;
pub use world::World;
