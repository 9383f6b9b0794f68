//! The error of the calls that evaluate a transfer.

ghost use Rattle.std.specs.Prelude.{◌≡◌};

use std::alloc::AllocError;
use thiserror::Error;

/// 39: out of memory.
#[derive(Debug, Drop, PartialEq, Eq, Error)]
pub enum CaseFault {
    #[error("out of memory")]
    Memory,
}

impl CaseFault {
    /// The fault's number, 39.
    pub fn number(&self) -> u8
        ensures { result ≡ 39 }
    {
        match self {
            CaseFault::Memory => 39,
        }
    }
}

impl From<AllocError> for CaseFault {
    fn from(_: AllocError) -> Self {
        CaseFault::Memory
    }
}

/// Callers whose only error is out of memory hand the fault on with `?`.
impl From<CaseFault> for AllocError {
    fn from(_: CaseFault) -> Self {
        AllocError
    }
}
