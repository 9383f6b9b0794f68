//! Digests of the entries that a site holds. Two sites with equal digests of an origin hold the same entries of it.
//!
//! The digest of no entries is 32 bytes of 0. The digest of an origin's entries up to one is SHA-256 of the digest before it
//! and of that entry's line in the archive text. [`Digests`] keeps what was worked out, so that a question costs what is new.
//! The laws of [`laws`] say what equal digests mean, and what SHA-256 is trusted for.
#![tactic(auto)]

mod chain;
mod digests;
pub mod laws;

pub use digests::Digests;
