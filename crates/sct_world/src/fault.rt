//! Why an event of a world is refused.

ghost use Rattle.std.specs.Prelude.{◌≡◌, Bool, true, false};
ghost use Rattle.sct_delta.specs.declared.fault.DeltaFault.TheVariants as delta;
ghost use Rattle.sct_world.specs.declared.fault.WorldFault.TheVariants as fault;

use sct_delta::DeltaFault;
use std::alloc::AllocError;
use thiserror::Error;

/// Why an event is refused, or why a world could not be made. A refused event leaves the world unchanged.
///
/// Two values have the number 44, `BadSite` and `Delta(DeltaFault::BadSite)`. A call of a world returns only the first.
#[derive(Debug, Drop, PartialEq, Eq, Error)]
pub enum WorldFault {
    /// 44: the world does not have this site, or a world cannot have this number of sites.
    #[error("no such site")]
    BadSite,
    /// 47: no delta of that number was cut.
    #[error("no such delta")]
    NoSuchDelta,
    /// The refusal of a site. A call of a world returns only 40, out of memory, and 41, a gap. The other values of
    /// `DeltaFault` are 42 to 45; in a world no site returns them.
    #[error("{0}")]
    Delta(DeltaFault),
}

impl WorldFault {
    ghost use Rattle.sct_world.specs.Faults.{world_fault_number, is_memory};

    /// The fault's number: 47, or 40 to 45.
    pub fn number(&self) -> u8
        ensures { result ≡ world_fault_number self.now }
    {
        match self {
            WorldFault::BadSite => 44,
            WorldFault::NoSuchDelta => 47,
            WorldFault::Delta(refusal) => refusal.number(),
        }
    }

    /// Whether the fault is out of memory.
    pub fn is_memory(&self) -> bool
        ensures { result ≡ is_memory self.now }
    {
        match self {
            WorldFault::Delta(DeltaFault::Memory) => true,
            _ => false,
        }
    }
}

impl From<AllocError> for WorldFault {
    ghost from_gives = { λ _ f. f ≡ fault.Delta delta.Memory };

    fn from(_: AllocError) -> Self {
        WorldFault::Delta(DeltaFault::Memory)
    }
}
