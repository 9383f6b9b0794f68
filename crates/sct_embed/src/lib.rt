//! One site of a group inside another program, by bytes: messages and deltas in, deltas and texts out.
//!
//! An [`EmbeddedSite`] reads and writes no stream. The text of a [`Question`] becomes its answer, which stays until the next
//! one. Its texts are those of the program, byte for byte. Each refusal is an [`EmbedFault`] with a number.
#![tactic(auto)]

mod arguments;
mod by_banks;
mod changes;
mod embedded_site;
mod faults;
mod following;
pub mod laws;
mod question;
mod questions;
mod reading;
mod sending;
mod shelf;
mod showing;
mod taking;
mod texts;

pub use embedded_site::EmbeddedSite;
pub use faults::EmbedFault;
pub use question::Question;
pub use taking::TakenLines;
