//! Why a call of an archive failed.

ghost use Rattle.std.specs.Prelude.{◌≡◌};

use std::alloc::AllocError;
use thiserror::Error;

/// 39: out of memory. The failed call has changed nothing.
#[derive(Debug, Drop, PartialEq, Eq, Error)]
pub enum SetFault {
    #[error("out of memory")]
    Memory,
}

impl SetFault {
    /// The fault's number, 39.
    pub fn number(&self) -> u8
        ensures { result ≡ 39 }
    {
        match self {
            SetFault::Memory => 39,
        }
    }
}

impl From<AllocError> for SetFault {
    fn from(_: AllocError) -> Self {
        SetFault::Memory
    }
}

/// Callers whose only error is out of memory hand the fault on with `?`.
impl From<SetFault> for AllocError {
    fn from(_: SetFault) -> Self {
        AllocError
    }
}
