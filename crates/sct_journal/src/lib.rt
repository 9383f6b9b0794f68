//! A journal of lines in a file, over any disk of `sqlite_disk`. A batch of lines is in the file whole or not at all, whenever
//! the machine stops.
#![tactic(auto)]

mod batch;
mod disks;
mod error;
mod front;
mod hosts;
mod journal;
mod lines;
mod making;
mod opening;
mod parts;
mod settling;

pub use batch::Batch;
pub use error::JournalError;
pub use front::{Front, a_journal_is_never_refused};
pub use hosts::{Disks, HostDisks};
pub use journal::Journal;
pub use lines::first_kept;
pub use opening::{Opening, open};
