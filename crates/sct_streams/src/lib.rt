//! Streams of bytes that count their failed calls, over the readers and writers of std.
//!
//! Bytes are read from a [`Source`] and written to a [`Sink`]. [`Reading`] and [`Writing`] make these of any reader and
//! writer of std. They keep what std knows of the bytes: those left to read, and those written. [`FileReading`] is a source
//! that opens one file after another. [`Failures`] is the count. [`read_all`] reads a whole input within a limit,
//! [`read_more`] reads on by some bytes, and [`write_all`] writes a whole text.
#![tactic(auto)]

mod failures;
mod file_reading;
mod files;
mod sink;
mod source;
mod whole;

pub use failures::Failures;
pub use file_reading::FileReading;
pub use files::{Files, HostFiles};
pub use sink::{Sink, Writing};
pub use source::{Failed, Reading, Source};
pub use whole::{ReadFault, read_all, read_more, write_all};
