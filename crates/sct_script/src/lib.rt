//! Scripts of a world: the events at its sites, line by line, and the answer to each event and of each site.
//!
//! [`read_script`] reads the bytes of a script, and [`replay`] runs its events. [`site_before_space`] and [`site_of`]
//! are steps by which a line is read. They are public for programs that read lines of another kind. So is
//! [`push_delta_fault`], which writes the refusal of a site.
#![tactic(auto)]

mod event;
mod fault;
mod outcomes;
mod replays;
mod script;

pub use event::{site_before_space, site_of};
pub use fault::{LineFault, ScriptFault};
pub use outcomes::push_delta_fault;
pub use replays::replay;
pub use script::{Script, read_script};
