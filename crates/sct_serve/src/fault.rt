//! Why a site is served no more.
ghost use Rattle.std.specs.Prelude.{◌≡◌};
ghost use Rattle.sct_serve.specs.declared.fault.ServeFault.TheVariants as fault;

use sct_keeper::KeeperError;
use std::alloc::AllocError;

/// Why a life ended before the end of its input.
#[derive(Clone, Copy, Debug)]
pub enum ServeFault {
    /// 65: the process is out of memory.
    Memory,
    /// 60: a request has more than 64 MiB.
    TooLong,
    /// 62: a read of the input failed.
    Read,
    /// 63: a write of the output failed.
    Write,
    /// The journal does not open, or does not take what the requests brought.
    Keeper(KeeperError),
}

impl From<AllocError> for ServeFault {
    ghost from_gives = { λ _ e. e ≡ fault.Memory };

    fn from(_: AllocError) -> Self {
        ServeFault::Memory
    }
}

impl From<KeeperError> for ServeFault {
    ghost from_gives = { λ k e. e ≡ fault.Keeper k };

    fn from(error: KeeperError) -> Self {
        ServeFault::Keeper(error)
    }
}
