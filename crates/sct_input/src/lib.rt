//! The messages of an input, which is read in blocks.
//!
//! [`read_messages`] reads a source up to its end. It cuts what it reads into blocks that end at line feeds. The lines of a
//! block are read in as many threads as there are processors, and then its bytes are dropped. So the bytes of an input of more
//! than 16 MiB are not all in memory together, unless a line is as long.
#![tactic(auto)]

mod blocks;

pub use blocks::read_messages;
