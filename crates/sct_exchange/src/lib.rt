//! Exchange between sites by files: a site is made anew from its journal, and is offered deltas in rounds.
//!
//! [`read_file`] reads a text as a delta or finds its first wrong line. [`exchange`] opens a site, lets it take the messages
//! of its journal, and offers it the files until it accepts no more. [`write_refused_files`] reports the files that the site
//! refuses, [`write_held`] writes its version vector, [`write_cut`] the delta text of what another site lacks, and
//! [`write_entries`] the delta text of entries of one origin, of a limited size. The laws of [`laws`] say that numbers last, and that
//! sites on several machines never fork.
#![tactic(auto)]

mod entries_text;
pub mod laws;
mod opening;
mod refused;
mod rounds;
mod texts;

pub use entries_text::write_entries;
pub use opening::{Exchanged, exchange};
pub use refused::{RefusedFile, push_refusal, write_refused_files};
pub use texts::{DeltaFile, read_file, write_cut, write_held};
