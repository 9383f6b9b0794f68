//! Why entries, deltas and version vectors are refused, and the text of it for the crates that report refused deltas.
ghost use Rattle.std.specs.Prelude.{◌≡◌, ◌++◌, IfOk, string_bytes};
ghost use Rattle.sct_delta.specs.declared.fault.DeltaFault.TheVariants as fault;
ghost use Rattle.sct_delta.specs.Faults.{fields_of_fault};

use std::alloc::{AllocError, AllocFailed};
use std::fmt::Write;
use thiserror::Error;

/// Why entries, a delta or a version vector are refused. The refused call has changed nothing.
#[derive(Debug, Drop, PartialEq, Eq, Error)]
pub enum DeltaFault {
    /// 40: out of memory.
    #[error("out of memory")]
    Memory,
    /// 41: only `have` entries of this origin are held, but the delta begins at number `first`, past the next one.
    #[error("origin {origin}: {have} entries are held, and the delta begins at {first}")]
    Gap { origin: u16, have: u64, first: u64 },
    /// 42: the entry of this origin and number is held with another message.
    #[error("entry {n} of origin {origin} is held with another message")]
    Fork { origin: u16, n: u64 },
    /// 43: the delta has an entry of the own origin with this number, above the own count.
    #[error("own entry {n} is ahead of the own count")]
    OwnAhead { n: u64 },
    /// 44: a site number outside the group, or outside 1 to 1024.
    #[error("no such site")]
    BadSite,
    /// 45: the place, from 1, of the first line, entry or pair that is wrong.
    #[error("line {0} is wrong")]
    BadDelta(u64),
}

impl DeltaFault {
    ghost use Rattle.sct_delta.specs.Faults.{delta_fault_number};

    /// The fault's number, 40 to 45.
    pub fn number(&self) -> u8
        ensures { result ≡ delta_fault_number self.now }
    {
        match self {
            DeltaFault::Memory => 40,
            DeltaFault::Gap { .. } => 41,
            DeltaFault::Fork { .. } => 42,
            DeltaFault::OwnAhead { .. } => 43,
            DeltaFault::BadSite => 44,
            DeltaFault::BadDelta(_) => 45,
        }
    }
}

impl From<AllocError> for DeltaFault {
    ghost from_gives = { λ _ f. f ≡ fault.Memory };

    fn from(_: AllocError) -> Self {
        DeltaFault::Memory
    }
}

impl<T: Drop> From<AllocFailed<T>> for DeltaFault {
    ghost from_gives = { λ _ f. f ≡ fault.Memory };

    fn from(_: AllocFailed<T>) -> Self {
        DeltaFault::Memory
    }
}

/// Appends the number of a fault and its fields, with the separator between each two, as in `41|1|0|2`. The error is that it is
/// out of memory.
#[tactic(auto, unfolding(crate::specs::Faults::fields_of_fault))]
pub fn push_fault(text: &mut String, fault: &DeltaFault, separator: &str) -> Result<(), AllocError>
    ensures { IfOk result (λ _. string_bytes text.new ≡ string_bytes text.old ++ fields_of_fault separator.now fault.now) }
{
    match fault {
        DeltaFault::Memory => text.push_str("40"),
        DeltaFault::Gap {
            origin,
            have,
            first,
        } => write!(
            text,
            "41{separator}{origin}{separator}{have}{separator}{first}"
        ),
        DeltaFault::Fork { origin, n } => write!(text, "42{separator}{origin}{separator}{n}"),
        DeltaFault::OwnAhead { n } => write!(text, "43{separator}{n}"),
        DeltaFault::BadSite => text.push_str("44"),
        DeltaFault::BadDelta(line) => write!(text, "45{separator}{line}"),
    }
}
