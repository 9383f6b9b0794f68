//! Why a line or a whole input is refused, and the text of why a line is.
ghost use Rattle.std.specs.Prelude.{◌≡◌};
ghost use Rattle.sct_script.specs.declared.fault.ScriptFault.TheVariants as fault;

use sct_json::JsonFault;
use sct_lines::{RefusalReason, push_json_fault};
use std::alloc::{AllocError, Global};
use thiserror::Error;

/// Why a line after the first one is not an event.
#[derive(Debug, Drop, Error)]
pub enum LineFault {
    /// 64: the line does not have the shape of an event, or its pairs do not make a version vector.
    #[error("no event")]
    NoEvent,
    /// 31 to 38, 46 or 56: why the message of a take is refused.
    #[error("{0}")]
    Message(JsonFault),
}

impl RefusalReason for LineFault {
    ghost use Rattle.sct_script.specs.Scripts.{line_fault_text};

    ghost reason_text = { line_fault_text };

    #[tactic(auto, unfolding(crate::specs::Scripts::line_fault_text))]
    fn push_text(&self, alloc: Global, text: &mut String) -> Result<(), AllocError> {
        match self {
            LineFault::NoEvent => text.push_str("64"),
            LineFault::Message(fault) => push_json_fault(alloc, text, fault),
        }
    }
}

/// Why an input is not read as a script.
#[derive(Clone, Copy, Debug, PartialEq, Eq, Error)]
pub enum ScriptFault {
    /// 40: out of memory.
    #[error("out of memory")]
    Memory,
    /// 64: the first line that is not skipped does not give the number of sites, or there is no such line.
    #[error("no script")]
    NoScript,
}

impl From<AllocError> for ScriptFault {
    ghost from_gives = { λ _ f. f ≡ fault.Memory };

    fn from(_: AllocError) -> Self {
        ScriptFault::Memory
    }
}
