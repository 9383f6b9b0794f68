//! What the sites of a run share, and what tells them apart.

ghost use Rattle.std.specs.Prelude.{◌≡◌, IfErr, IfOk};
ghost use Rattle.sct_workers.specs.Holds.{WorkerEndsWhere};
ghost use Rattle.sct_workers.specs.Points.{site_of_point};

use crate::fault::WorkFault;
use crate::gate::{Gate, Held, Point};
use std::alloc::Global;
use std::sync::Wait;

/// What all sites of a run share: the runtime, the allocator and the gate.
#[derive(Drop)]
pub(crate) struct Run<'a, G, R> {
    pub(crate) rt: &'a R,
    pub(crate) alloc: Global,
    pub(crate) gate: &'a G,
}

/// The number of a site, counted from 1, and the number of sites in its group.
#[derive(Clone, Copy)]
pub(crate) struct MemberSite {
    pub(crate) number: u16,
    pub(crate) group: u16,
}

/// A point that a worker has passed. Only [`pass`] makes one.
#[derive(Drop)]
pub(crate) struct Passed {
    point: Point,
}

impl Passed {
    /// The site of the worker.
    pub(crate) fn site(&self) -> u16
        ensures { result ≡ site_of_point self.now.point }
    {
        match self.point {
            Point::Take { site, .. } => site,
            Point::Accepted { site } => site,
            Point::Answered { site } => site,
        }
    }
}

/// Passes a point of the run's gate. Error: `Held` (61) if the gate holds the worker.
pub(crate) fn pass<G: Gate, R: Wait>(run: &Run<'_, G, R>, point: Point) -> Result<Passed, WorkFault>
    ensures passed { IfOk result (λ passed. passed.point ≡ point) }
    ensures ends { IfErr result (WorkerEndsWhere (G.may_hold run.now.gate.now)) }
{
    match run.gate.pass(run.rt, point) {
        Ok(()) => Ok(Passed { point }),
        Err(Held) => Err(WorkFault::Held),
    }
}
