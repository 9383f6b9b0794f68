//! The result of several sites: all of them, or the fault that is reported.

ghost use Rattle.std.specs.Prelude.{◌≡◌, ◌⊎◌, ◌++◌, ◌∷◌, [], List, Result, Err, Ok, IfErr, IfOk, OnOk, length};
ghost use Rattle.sct_workers.specs.declared.fault.WorkFault.TheVariants as fault;
ghost use Rattle.sct_workers.specs.declared.fault.SiteFault.{SiteFault};
ghost use Rattle.sct_workers.specs.declared.fault.SiteFault.TheVariants as site;
ghost use Rattle.sct_workers.specs.declared.filled.Filled.{Filled};
ghost use Rattle.sct_workers.specs.Each.{AtEach};
ghost use Rattle.sct_workers.specs.Files.{bytes_of};
ghost use Rattle.sct_workers.specs.Filling.{AreFilled};
ghost use Rattle.sct_workers.specs.Reported.{AnswersTo, IsReported, NoneFails, Reports};

use crate::fault::{SiteFault, WorkFault, worse_of_sites};
use crate::filled::{Filled, Sites};
use std::alloc::{AllocError, Global};

// The fault that is reported of the sites so far and the next one.
#[tactic(auto, using(crate::proofs::ReportLemmas::reports_when_ok, crate::proofs::ReportLemmas::reports_when_first, crate::proofs::ReportLemmas::reports_when_next))]
fn report_next(so_far: Option<SiteFault>, answer: &Result<Filled, SiteFault>) -> Option<SiteFault>
    ensures { (before : List (Result Filled SiteFault)) → Reports before so_far
        → Reports (before ++ answer.now ∷ []) result }
{
    match (so_far, answer) {
        (_, Ok(_)) => so_far,
        (None, Err(fault)) => Some(*fault),
        (Some(first), Err(fault)) => Some(worse_of_sites(first, *fault)),
    }
}

/// The fault that is reported of several sites, by their answers in the order of their inputs; none if no site failed.
/// Faults of workers come first, in this order: `NoWorker` (67), `Memory` (65), `Held` (61), and `Refused` (66) with
/// the least number. After these comes the first site whose desk is not closed.
pub fn reported_fault(answers: &[Result<Filled, SiteFault>]) -> Option<SiteFault>
    ensures { Reports answers.now result }
{
    let mut reported = None;
    for answer in answers {
        reported = report_next(reported, answer);
    }
    reported
}

// The sites, none of which failed.
fn collect_all(
    alloc: Global,
    inputs: &[Vec<u8>],
    answers: Vec<Result<Filled, SiteFault>>,
) -> Result<Sites, AllocError>
    requires len { length answers.items ≡ length inputs.now }
    requires filled { AtEach (AnswersTo (length inputs.now) (bytes_of inputs.now)) answers.items }
    requires none { NoneFails answers.items }
    ensures filled { IfOk result (AreFilled (length inputs.now) (bytes_of inputs.now)) }
{
    let mut sites = Sites::none(alloc);
    for answer in answers {
        let Ok(site) = answer else { unreachable!() };
        sites = sites.with(site)?;
    }
    Ok(sites)
}

/// The result of several sites, by their answers in the order of their inputs: all of them if none failed, else the
/// fault that is reported. Further error: `Memory` (65) if there is no memory to put the sites together.
pub(crate) fn collect_sites(
    alloc: Global,
    inputs: &[Vec<u8>],
    answers: Vec<Result<Filled, SiteFault>>,
) -> Result<Sites, SiteFault>
    requires len { length answers.items ≡ length inputs.now }
    requires filled { AtEach (AnswersTo (length inputs.now) (bytes_of inputs.now)) answers.items }
    ensures filled { IfOk result (AreFilled (length inputs.now) (bytes_of inputs.now)) }
    ensures all { OnOk result (NoneFails answers.items) }
    ensures order { IfErr result (λ e. IsReported answers.items e
        ⊎ (NoneFails answers.items × (e ≡ site.Working fault.Memory))) }
{
    match reported_fault(&answers) {
        Some(fault) => Err(fault),
        None => match collect_all(alloc, inputs, answers) {
            Ok(sites) => Ok(sites),
            Err(_) => Err(SiteFault::Working(WorkFault::Memory)),
        },
    }
}
