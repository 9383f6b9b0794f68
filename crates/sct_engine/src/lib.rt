//! The program over streams of any kind: from the words of its command line to its exit status.
//!
//! [`run`] does what the words of a command line ask for, on one input or on files, or serves a site, and reports how it ended.
//! [`run_over_std`] does the same over the readers and writers of std. What one command does is in `sct_commands`.
#![tactic(auto)]

mod fault;
mod program;
mod serving;

pub use program::{Storage, run, run_over_std};
