//! The faults that end a run, each with its number.
ghost use Rattle.std.specs.Prelude.{◌≡◌};
ghost use Rattle.sct_commands.specs.declared.fault.ProgramFault.TheVariants as fault;
ghost use Rattle.sct_commands.specs.Fault.{fault_of_journal, fault_of_list, fault_of_read, fault_of_script, fault_of_work, program_fault_number};

use sct_journal::JournalError;
use sct_reconcile::ReconcileFault;
use sct_script::ScriptFault;
use sct_streams::{Failed, ReadFault};
use sct_workers::WorkFault;
use std::alloc::AllocError;
use thiserror::Error;

/// The fault that ends a run of the program.
#[derive(Clone, Copy, Debug, PartialEq, Eq, Error)]
#[error("fault {}", self.number())]
pub enum ProgramFault {
    /// 48: the number of the first bad record of the list, counted from 1 with the header.
    BadList(u64),
    /// 60: the input has a byte past the limit.
    TooLong,
    /// 61: a gate held the work at a site.
    Held,
    /// 62: a read failed, or a file could not be opened.
    Read,
    /// 63: a write failed, or took no byte.
    Write,
    /// 64: the program does not take the command line, the limit or the script.
    Usage,
    /// 65: out of memory.
    Memory,
    /// 66: a call at a site was refused, with the number of its own fault.
    /// When a desk is closed, arrivals may be pending (53) or not covered by exactly one receipt (54). An entry of another
    /// site may be refused (42 to 44), or the sites cannot be settled (42 to 44). Of other numbers only 52 and 55 are
    /// possible.
    Refused(u8),
    /// 67: a thread for the work at a site could not be started.
    NoWorker,
    /// 75: the file of the journal is no journal of a site.
    NoJournal,
    /// 76: the journal is that of another site, or of a site of another group.
    OtherSite,
    /// 77: another process has the journal.
    Busy,
    /// 78: a call of the disk failed, or the journal cannot grow.
    Disk,
}

impl ProgramFault {
    /// The fault's number: 48, 60 to 67, or 75 to 78.
    pub fn number(&self) -> u8
        ensures { result ≡ program_fault_number self.now }
    {
        match self {
            ProgramFault::BadList(_) => 48,
            ProgramFault::TooLong => 60,
            ProgramFault::Held => 61,
            ProgramFault::Read => 62,
            ProgramFault::Write => 63,
            ProgramFault::Usage => 64,
            ProgramFault::Memory => 65,
            ProgramFault::Refused(_) => 66,
            ProgramFault::NoWorker => 67,
            ProgramFault::NoJournal => 75,
            ProgramFault::OtherSite => 76,
            ProgramFault::Busy => 77,
            ProgramFault::Disk => 78,
        }
    }
}

impl From<AllocError> for ProgramFault {
    ghost from_gives = { λ _ e. e ≡ fault.Memory };

    fn from(_error: AllocError) -> ProgramFault {
        ProgramFault::Memory
    }
}

impl From<ReadFault> for ProgramFault {
    ghost from_gives = { λ fault e. e ≡ fault_of_read fault };

    fn from(fault: ReadFault) -> ProgramFault {
        match fault {
            ReadFault::TooLong => ProgramFault::TooLong,
            ReadFault::Failed => ProgramFault::Read,
            ReadFault::Memory => ProgramFault::Memory,
        }
    }
}

/// A failed call of a sink is a failed write. A file that cannot be opened is `Read` (62), where it is opened.
impl From<Failed> for ProgramFault {
    ghost from_gives = { λ _ e. e ≡ fault.Write };

    fn from(_failed: Failed) -> ProgramFault {
        ProgramFault::Write
    }
}

impl From<ReconcileFault> for ProgramFault {
    ghost from_gives = { λ fault e. e ≡ fault_of_list fault };

    fn from(fault: ReconcileFault) -> ProgramFault {
        match fault {
            ReconcileFault::BadList(row) => ProgramFault::BadList(row),
            ReconcileFault::Memory => ProgramFault::Memory,
        }
    }
}

impl From<ScriptFault> for ProgramFault {
    ghost from_gives = { λ fault e. e ≡ fault_of_script fault };

    fn from(fault: ScriptFault) -> ProgramFault {
        match fault {
            ScriptFault::NoScript => ProgramFault::Usage,
            ScriptFault::Memory => ProgramFault::Memory,
        }
    }
}

impl From<WorkFault> for ProgramFault {
    ghost from_gives = { λ fault e. e ≡ fault_of_work fault };

    fn from(fault: WorkFault) -> ProgramFault {
        match fault {
            WorkFault::Held => ProgramFault::Held,
            WorkFault::Memory => ProgramFault::Memory,
            WorkFault::Refused { number } => ProgramFault::Refused(number),
            WorkFault::NoWorker => ProgramFault::NoWorker,
        }
    }
}

impl From<JournalError> for ProgramFault {
    ghost from_gives = { λ error e. e ≡ fault_of_journal error };

    fn from(error: JournalError) -> ProgramFault {
        match error {
            JournalError::Memory => ProgramFault::Memory,
            JournalError::Disk | JournalError::Full => ProgramFault::Disk,
            JournalError::NoJournal => ProgramFault::NoJournal,
            JournalError::OtherSite => ProgramFault::OtherSite,
            JournalError::Busy => ProgramFault::Busy,
        }
    }
}
