//! A flag that the parts of an input share: one of them is out of memory, so the others end.
ghost use Rattle.std.specs.Prelude.{◌≡◌};

use crate::intake::PartRead;
use std::alloc::AllocError;
use std::sync::atomic::{AtomicBool, Ordering};

// Whether some part of an input is out of memory.
#[derive(Drop)]
pub(crate) struct Shortage {
    met: AtomicBool,
}

impl Shortage {
    // No part is out of memory yet.
    pub(crate) fn none() -> Shortage {
        Shortage {
            met: AtomicBool::new(false),
        }
    }

    // An error if some part is out of memory.
    pub(crate) fn check(&self) -> Result<(), AllocError> {
        if self.met.load(Ordering::SeqCst) {
            return Err(AllocError);
        }
        Ok(())
    }

    // Hands on what a part comes to. After an error the other parts end.
    pub(crate) fn noted(&self, read: Result<PartRead, AllocError>) -> Result<PartRead, AllocError>
        ensures { result ≡ read }
    {
        if read.is_err() {
            self.met.store(true, Ordering::SeqCst);
        }
        read
    }
}
