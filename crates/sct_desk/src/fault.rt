//! Why a desk or a query refuses.

ghost use Rattle.std.specs.Prelude.{◌≡◌};
ghost use Rattle.sct_desk.specs.Faults.{desk_fault_number};

use thiserror::Error;

/// Why a call of a desk or of a query is refused.
#[derive(Clone, Copy, Debug, PartialEq, Eq, Error)]
pub enum DeskFault {
    /// 44: the group does not have 1 to 1024 sites, or does not have this site.
    #[error("no such site")]
    BadSite,
    /// 50: out of memory. The arrivals that the desk holds and shows are unchanged.
    #[error("out of memory")]
    Memory,
    /// 51: out of memory for the publication. The effect of the call stays, and the arrivals from this position on are
    /// not shown yet. The next publication that succeeds shows them.
    #[error("arrivals are held back from position {from} on")]
    Unpublished { from: u64 },
    /// 52: there is no place for this number of queries, which must be 1 to 16.
    #[error("no place for a query")]
    NoPlace,
    /// 53: arrivals are pending, from this position on.
    #[error("arrivals are pending from position {from} on")]
    Pending { from: u64 },
    /// 54: this position is not covered by exactly one of the receipts, and is the first such position.
    #[error("position {position} is not covered by exactly one receipt")]
    Untold { position: u64 },
    /// 55: the desk was closed or dropped.
    #[error("the desk is closed")]
    Closed,
}

impl DeskFault {
    /// The fault's number: 44, or 50 to 55.
    pub fn number(&self) -> u8
        ensures { result ≡ desk_fault_number self.now }
    {
        match self {
            DeskFault::BadSite => 44,
            DeskFault::Memory => 50,
            DeskFault::Unpublished { .. } => 51,
            DeskFault::NoPlace => 52,
            DeskFault::Pending { .. } => 53,
            DeskFault::Untold { .. } => 54,
            DeskFault::Closed => 55,
        }
    }
}
