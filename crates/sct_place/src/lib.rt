//! A site that is kept for a program in another language: a [`Place`] keeps one, or a snapshot of one, with why its last call was refused.
//!
//! It goes from thread to thread, and one call at a time uses it. Each call at it has an outcome with a number, and the texts are those of
//! `sct_embed`.
#![tactic(auto)]

mod asking;
mod calling;
mod codes;
mod content;
mod handle;
mod kept;
mod outcomes;
mod place;

pub use codes::{copy_code_name, copy_code_text};
pub use handle::Handle;
pub use outcomes::{AcceptOutcome, CallOutcome, LinesOutcome, TakeOutcome};
pub use place::Place;
