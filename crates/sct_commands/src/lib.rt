//! The commands of the program, but for `serve`: the words of the command line, the jobs on one input, the runs of several inputs, what sites
//! exchange by files, and the texts that are written.
//!
//! [`read_request`] reads what the words ask for. [`engine`] runs one job on one input. [`run_sites`] and [`answer_of_inputs`] bring several inputs to
//! one answer, and [`answer_of_site`] makes a site of its files. [`conclude`] reports how a run ended. [`Release`] says when the memory of a job is
//! given back.
#![tactic(auto)]

mod answers;
mod commands;
mod ending;
mod exchanging;
mod fault;
mod files;
mod jobs;
mod mistakes;
mod places;
mod replays;
mod request;
mod runs;
mod texts;

pub use answers::{ProgramAnswer, write_answer};
pub use ending::{Ending, conclude};
pub use exchanging::{Gathered, answer_of_site, gather};
pub use fault::ProgramFault;
pub use files::{read_file, read_files};
pub use jobs::{Done, Job, MOST_BYTES, Release, engine};
pub use places::{ServeCommand, SiteCommand, Wanting};
pub use request::{Reconciliation, Request, read_request, read_words};
pub use runs::{RunAnswer, answer_of_inputs, run_sites};
