//! Why a keeper fails.
ghost use Rattle.sct_keeper.specs.declared.fault.KeeperError.TheVariants as error;
ghost use Rattle.std.specs.Prelude.{◌≡◌};

use sct_journal::JournalError;
use std::alloc::AllocError;

/// Why a keeper did not do what was asked.
#[derive(Clone, Copy, Debug)]
pub enum KeeperError {
    /// The process is out of memory (65).
    Memory,
    /// The group does not have 1 to 1024 sites, or does not have this site (64).
    BadSite,
    /// The journal did not do what was asked (65, 75, 76, 78).
    Journal(JournalError),
}

impl From<AllocError> for KeeperError {
    ghost from_gives = { λ _ e. e ≡ error.Memory };

    fn from(_: AllocError) -> Self {
        KeeperError::Memory
    }
}

impl From<JournalError> for KeeperError {
    ghost from_gives = { λ f e. e ≡ error.Journal f };

    fn from(fault: JournalError) -> Self {
        KeeperError::Journal(fault)
    }
}
