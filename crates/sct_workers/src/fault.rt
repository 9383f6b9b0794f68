//! Why workers and sites end early, and which of several faults is reported.

ghost use Rattle.std.specs.Prelude.{◌≡◌, ◌⊎◌, ◌≤◌, ◌<◌};
ghost use Rattle.sct_workers.specs.Faults.{fault_of_delta, fault_of_desk, work_fault_number};
ghost use Rattle.sct_workers.specs.Holds.{rank_of, site_rank_of, work_fault_of};
ghost use Rattle.sct_workers.specs.declared.fault.SiteFault.TheVariants as site;
ghost use Rattle.sct_workers.specs.declared.fault.WorkFault.TheVariants as fault;

use sct_delta::DeltaFault;
use sct_desk::DeskFault;
use std::alloc::AllocError;
use thiserror::Error;

/// Why a worker ends before its work is done.
#[derive(Clone, Copy, Debug, PartialEq, Eq, Error)]
pub enum WorkFault {
    /// 61: a gate held the worker back.
    #[error("a gate held a worker back")]
    Held,
    /// 65: out of memory at this call, or at an earlier call whose arrival a later call published.
    #[error("out of memory")]
    Memory,
    /// 66: a call was refused, with the number of its own fault.
    #[error("a call was refused with {number}")]
    Refused { number: u8 },
    /// 67: a thread for a worker could not be started.
    #[error("no thread for a worker")]
    NoWorker,
}

impl WorkFault {
    /// The fault's number: 61 or 65 to 67.
    pub fn number(&self) -> u8
        ensures { result ≡ work_fault_number self.now }
    {
        match self {
            WorkFault::Held => 61,
            WorkFault::Memory => 65,
            WorkFault::Refused { .. } => 66,
            WorkFault::NoWorker => 67,
        }
    }
}

impl From<AllocError> for WorkFault {
    ghost from_gives = { λ _ e. e ≡ fault.Memory };

    fn from(_error: AllocError) -> WorkFault {
        WorkFault::Memory
    }
}

impl From<DeskFault> for WorkFault {
    ghost from_gives = { λ refusal e. e ≡ fault_of_desk refusal };

    fn from(refusal: DeskFault) -> WorkFault {
        match refusal {
            DeskFault::Memory | DeskFault::Unpublished { .. } => WorkFault::Memory,
            _ => WorkFault::Refused {
                number: refusal.number(),
            },
        }
    }
}

impl From<DeltaFault> for WorkFault {
    ghost from_gives = { λ refusal e. e ≡ fault_of_delta refusal };

    fn from(refusal: DeltaFault) -> WorkFault {
        match refusal {
            DeltaFault::Memory => WorkFault::Memory,
            _ => WorkFault::Refused {
                number: refusal.number(),
            },
        }
    }
}

/// Why a site has no core. The two cases have one kind of fault. They differ in rank: a desk that is not closed is reported
/// only if no worker of any site failed.
#[derive(Clone, Copy, Debug, PartialEq, Eq)]
pub enum SiteFault {
    /// The site could not be opened, or one of its workers ended early.
    Working(WorkFault),
    /// All workers of the site did their work, but its desk was not closed.
    Closing(WorkFault),
}

impl From<WorkFault> for SiteFault {
    ghost from_gives = { λ reason e. e ≡ site.Working reason };

    fn from(reason: WorkFault) -> SiteFault {
        SiteFault::Working(reason)
    }
}

impl SiteFault {
    /// The fault of the worker, or of the refusal to close the desk.
    pub fn reason(self) -> WorkFault
        ensures { result ≡ work_fault_of self }
    {
        match self {
            SiteFault::Working(reason) => reason,
            SiteFault::Closing(reason) => reason,
        }
    }
}

// The rank of a worker's fault. Among several faults, the one of the least rank is reported.
fn rank(fault: WorkFault) -> u16
    ensures { result ≡ rank_of fault }
{
    match fault {
        WorkFault::NoWorker => 0,
        WorkFault::Memory => 1,
        WorkFault::Held => 2,
        WorkFault::Refused { number } => 3 + u16::from(number),
    }
}

// The fault of least rank among those of two workers; the first worker's if the ranks are equal.
pub(crate) fn worse_of_workers(first: WorkFault, second: WorkFault) -> WorkFault
    ensures one { (result ≡ first) ⊎ (result ≡ second) }
    ensures least { (rank_of result ≤ rank_of first) × (rank_of result ≤ rank_of second) }
{
    if rank(second) < rank(first) {
        second
    } else {
        first
    }
}

// The rank of a site's fault among those of several sites.
fn site_rank(fault: SiteFault) -> u16
    ensures { result ≡ site_rank_of fault }
{
    match fault {
        SiteFault::Working(reason) => rank(reason),
        SiteFault::Closing(_) => 300,
    }
}

// The fault of least rank among those of two sites; the first site's if the ranks are equal.
pub(crate) fn worse_of_sites(first: SiteFault, second: SiteFault) -> SiteFault
    ensures one { (result ≡ first) ⊎ (result ≡ second) }
    ensures least { (site_rank_of result ≤ site_rank_of first) × (site_rank_of result ≤ site_rank_of second) }
    ensures earlier { site_rank_of first ≤ site_rank_of second → result ≡ first }
{
    if site_rank(second) < site_rank(first) {
        second
    } else {
        first
    }
}
