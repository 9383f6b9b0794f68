//! JSON lines of messages. A text is cut at its line feeds, and each line is read as a message or refused.
//!
//! [`read_lines`] reads a whole input, in as many threads as there are processors, and returns its [`Intake`]: the messages
//! and the [`Refusals`]. [`read_lines_by_halves`] reads it in as many parts as the caller says. [`read_file_lines`] writes
//! a text before each line of its report, such as `file 1 `. [`read_lines_after`] does so too, and reads in one thread.
//!
//! An input may come in blocks that end at line feeds: [`whole_lines`] finds where, and [`LinesRead`] reads one after another.
//!
//! [`first_line`], [`is_blank_line`] and [`read_line`] are the steps of it, for crates that read lines of another kind too.
//! Such a crate says by [`RefusalReason`] why it refuses a line. The only error is that a call is out of memory.
#![tactic(auto)]

mod before;
mod intake;
mod lines;
mod parts;
mod refusal_text;
mod refusals;
mod shortage;
mod text;

pub use intake::{Intake, LinesRead, read_line, read_lines_after};
pub use lines::{first_line, is_blank_line, lines_tile_the_text, whole_lines, whole_lines_stay};
pub use parts::{read_file_lines, read_lines, read_lines_by_halves};
pub use refusal_text::push_json_fault;
pub use refusals::{RefusalReason, Refusals};
