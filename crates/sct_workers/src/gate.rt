//! Gates: they may hold workers at certain points.

ghost use Rattle.std.specs.Prelude.{IfErr};

use std::sync::Wait;

/// A point that a worker passes. Sites are numbered from 1.
#[derive(Clone, Copy, Debug, PartialEq, Eq)]
pub enum Point {
    /// The intake worker of the site is about to take the message of its k-th accepted line, counted from 1.
    Take { site: u16, k: u64 },
    /// The exchange worker of the site handed over a delta, and it was accepted.
    Accepted { site: u16 },
    /// The query worker of the site has its answer.
    Answered { site: u16 },
}

/// 61: a gate holds a worker for good.
#[derive(Clone, Copy, Debug, PartialEq, Eq)]
pub struct Held;

/// A gate, which all workers of a run pass. It may make a worker wait, or hold it for good.
pub trait Gate {
    ghost use Rattle.sct_workers.specs.declared.gate.Point.{Point};

    /// The points at which it may return [`Held`].
    ghost may_hold: { Self → Point → Type 0 };

    /// Lets a worker pass a point, at once or later, or returns [`Held`].
    fn pass<R: Wait>(&self, rt: &R, point: Point) -> Result<(), Held>
        ensures { IfErr result (λ held. may_hold self.now point) };
}

/// The gate that lets all workers pass: it names no point.
#[derive(Clone, Copy)]
pub struct FreeGate;

impl Gate for FreeGate {
    ghost may_hold = { λ gate point. ⊥ };

    fn pass<R: Wait>(&self, _rt: &R, _point: Point) -> Result<(), Held> {
        Ok(())
    }
}
