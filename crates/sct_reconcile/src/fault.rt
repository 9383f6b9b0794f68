//! Why a list was not read, or a report was not made.

ghost use Rattle.std.specs.Prelude.{◌≡◌};
ghost use Rattle.sct_reconcile.specs.Lists.{fault_number};
ghost use Rattle.sct_reconcile.specs.declared.fault.ReconcileFault.TheVariants as fault;

use std::alloc::AllocError;
use thiserror::Error;

/// A text that is not a valid list, or out of memory.
#[derive(Debug, Drop, PartialEq, Eq, Error)]
pub enum ReconcileFault {
    /// 48: the number of the first bad record of a list, counted from 1 with the header.
    #[error("record {0} of the list is not a row of a list")]
    BadList(u64),
    /// 49: out of memory, or any fault of `csv`.
    #[error("out of memory")]
    Memory,
}

impl ReconcileFault {
    /// The fault's number: 48 for a bad list, 49 if out of memory.
    pub fn number(&self) -> u8
        ensures { result ≡ fault_number self.now }
    {
        match self {
            ReconcileFault::BadList(_) => 48,
            ReconcileFault::Memory => 49,
        }
    }
}

impl From<AllocError> for ReconcileFault {
    ghost from_gives = { λ _ f. f ≡ fault.Memory };

    fn from(_: AllocError) -> Self {
        ReconcileFault::Memory
    }
}

impl From<csv::Error> for ReconcileFault {
    ghost from_gives = { λ _ f. f ≡ fault.Memory };

    fn from(_: csv::Error) -> Self {
        ReconcileFault::Memory
    }
}
