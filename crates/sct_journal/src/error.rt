//! Why a journal did not do what was asked.

ghost use Rattle.std.specs.Prelude.{◌≡◌};

use std::alloc::AllocError;
use std::io;

/// Why a journal did not do what was asked.
#[derive(Clone, Copy, Debug, PartialEq)]
pub enum JournalError {
    /// The process is out of memory. Nothing was written. The program gives the number 65.
    Memory,
    /// The disk failed. What was asked for may be in the file or not, and nothing else was lost: open the file again. The
    /// program gives the number 78.
    Disk,
    /// The file has 2^62 bytes. Nothing was written. The program gives the number 78.
    Full,
    /// The file is no journal. Nothing was written. The program gives the number 75.
    NoJournal,
    /// The file is the journal of another site. Nothing was written. The program gives the number 76.
    OtherSite,
    /// Another process has the file. Nothing was written. The program gives the number 77.
    Busy,
}

impl From<AllocError> for JournalError {
    ghost use Rattle.sct_journal.specs.declared.error.JournalError.TheVariants.{Memory};

    ghost from_gives = { λ _ e. e ≡ Memory };

    fn from(_: AllocError) -> Self {
        JournalError::Memory
    }
}

impl From<io::Error> for JournalError {
    ghost use Rattle.sct_journal.specs.declared.error.JournalError.TheVariants.{Disk};

    ghost from_gives = { λ _ e. e ≡ Disk };

    fn from(_: io::Error) -> Self {
        JournalError::Disk
    }
}
