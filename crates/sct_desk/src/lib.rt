//! One running site for many threads. Some take messages, and accept and cut deltas, under its
//! lock. Others ask queries and never wait.
#![tactic(auto)]

mod asking;
mod closing;
mod desk;
mod events;
mod fault;
mod held;
mod open;
mod publishing;
mod query;
mod question;
mod receipt;
mod shown;

pub use desk::{Desk, NotClosed};
pub use fault::DeskFault;
pub use held::Site;
pub use query::{Answer, Query};
pub use receipt::Receipt;
