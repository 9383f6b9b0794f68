//! Gates that hold workers until others have reached some point. Workers that run one after another never get there.

use sct_workers::*;
use std::sync::Wait;
use std::sync::atomic::{AtomicU64, Ordering};
use std::thread;

/// A gate looks at most this often, and gives way between two looks.
const LOOKS: u64 = 20_000_000;

// Waits until all of the bits are set.
fn wait_for(seen: &AtomicU64, all: u64) -> Result<(), Held> {
    for _ in 0..LOOKS {
        if seen.load(Ordering::SeqCst) & all == all {
            return Ok(());
        }
        thread::yield_now();
    }
    Err(Held)
}

/// Holds the second message of site 1 until its query is answered and site 2 has accepted a delta.
#[derive(Drop)]
pub(crate) struct InStep {
    seen: AtomicU64,
}

impl InStep {
    pub(crate) fn new() -> InStep {
        InStep {
            seen: AtomicU64::new(0),
        }
    }
}

impl Gate for InStep {
    ghost use Rattle.std.specs.Prelude.{◌≡◌};
    ghost use Rattle.sct_workers.specs.declared.gate.Point.TheVariants as point;

    ghost may_hold = { λ gate at. at ≡ point.Take 1 2 };

    fn pass<R: Wait>(&self, _rt: &R, point: Point) -> Result<(), Held> {
        match point {
            Point::Answered { site: 1 } => {
                self.seen.fetch_or(1, Ordering::SeqCst);
                Ok(())
            }
            Point::Accepted { site: 2 } => {
                self.seen.fetch_or(2, Ordering::SeqCst);
                Ok(())
            }
            Point::Take { site: 1, k: 2 } => wait_for(&self.seen, 3),
            _ => Ok(()),
        }
    }
}

/// Holds the first messages of the sites 1 and 2, each until the other is reached.
#[derive(Drop)]
pub(crate) struct Meeting {
    seen: AtomicU64,
}

impl Meeting {
    pub(crate) fn new() -> Meeting {
        Meeting {
            seen: AtomicU64::new(0),
        }
    }
}

impl Gate for Meeting {
    ghost may_hold = { λ gate at. Unit {0} };

    fn pass<R: Wait>(&self, _rt: &R, point: Point) -> Result<(), Held> {
        let bit = match point {
            Point::Take { site: 1, k: 1 } => 1,
            Point::Take { site: 2, k: 1 } => 2,
            _ => return Ok(()),
        };
        self.seen.fetch_or(bit, Ordering::SeqCst);
        wait_for(&self.seen, 3)
    }
}

/// Holds each exchange worker after it accepted a delta.
pub(crate) struct HeldAccepts;

impl Gate for HeldAccepts {
    ghost may_hold = { λ gate at. Unit {0} };

    fn pass<R: Wait>(&self, _rt: &R, point: Point) -> Result<(), Held> {
        match point {
            Point::Accepted { .. } => Err(Held),
            _ => Ok(()),
        }
    }
}

/// Holds each query worker after it was answered.
pub(crate) struct HeldAnswers;

impl Gate for HeldAnswers {
    ghost may_hold = { λ gate at. Unit {0} };

    fn pass<R: Wait>(&self, _rt: &R, point: Point) -> Result<(), Held> {
        match point {
            Point::Answered { .. } => Err(Held),
            _ => Ok(()),
        }
    }
}

/// Holds the first message of site 1, and counts the deltas that sites have accepted.
#[derive(Drop)]
pub(crate) struct HeldFirst {
    accepted: AtomicU64,
}

impl HeldFirst {
    pub(crate) fn new() -> HeldFirst {
        HeldFirst {
            accepted: AtomicU64::new(0),
        }
    }

    /// How many deltas sites have accepted.
    pub(crate) fn accepted(&self) -> u64 {
        self.accepted.load(Ordering::SeqCst)
    }
}

impl Gate for HeldFirst {
    ghost may_hold = { λ gate at. Unit {0} };

    fn pass<R: Wait>(&self, _rt: &R, point: Point) -> Result<(), Held> {
        match point {
            Point::Take { site: 1, k: 1 } => Err(Held),
            Point::Accepted { .. } => {
                self.accepted.fetch_add(1, Ordering::SeqCst);
                Ok(())
            }
            _ => Ok(()),
        }
    }
}

/// Lets no worker pass.
pub(crate) struct Shut;

impl Gate for Shut {
    ghost may_hold = { λ gate at. Unit {0} };

    fn pass<R: Wait>(&self, _rt: &R, _point: Point) -> Result<(), Held> {
        Err(Held)
    }
}
