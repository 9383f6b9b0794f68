//! A run of several inputs: each input fills a site of its own, the sites are settled, and the answer is the status text of
//! all their messages.
ghost use Rattle.std.specs.Prelude.{◌≡◌, ◌≢◌, ◌↔◌, ◌<◌, false, true, Err, length, IfErr, IfOk, OnOk, string_bytes};
ghost use Rattle.sct_delta.specs.Entries.{messages_of};
ghost use Rattle.sct_commands.specs.Fault.{fault_of_work};
ghost use Rattle.sct_commands.specs.Runs.{are_sites, set_of_all, IsSettledAnswer, IsSettlingFault, NoOrderMatters, RunEndsWhere};
ghost use Rattle.sct_commands.specs.Tasks.{EndsSettling};
ghost use Rattle.sct_commands.specs.declared.fault.ProgramFault.TheVariants as fault;
ghost use Rattle.sct_set.specs.Pieces.{joined};
ghost use Rattle.sct_view.specs.StatusText.{status_text_of};
ghost use Rattle.sct_workers.specs.Files.{bytes_of, refused_in, told_from};
ghost use Rattle.sct_workers.specs.Filling.{AreFilled};
ghost use Rattle.sct_workers.specs.Holds.{EndsWhere};
ghost use Rattle.sct_world.specs.Settling.{core_in, AreSettled};

use crate::answers::{ProgramAnswer, one_piece};
use crate::fault::ProgramFault;
use sct_set::Archive;
use sct_site::SiteCore;
use sct_view::FiledArchive;
use sct_workers::{FreeGate, Gate, Sites, WorkFault, fill_sites};
use sct_world::settle;
use std::alloc::{AllocError, Global};
use std::sync::Wait;
use std::thread::Threads;

/// The answer of a run of several inputs.
#[derive(Drop)]
pub struct RunAnswer {
    /// The status text of the messages that are read from all inputs.
    pub status: Vec<u8>,
    /// The text of the refused lines, input by input.
    pub told: String,
    /// How many lines are refused.
    pub refused: u64,
}

/// The greatest number of sites of a run.
pub const MOST_SITES: usize = 16;

/// Whether a run can have this number of sites: 1 to 16.
pub fn are_sites(count: usize) -> bool
    ensures { result ≡ are_sites count }
{
    count > 0 && count <= MOST_SITES
}

// Fills a site from each input, by workers of its own. At least one site is filled.
#[tactic(auto, using(crate::proofs::RunLemmas::some_cores))]
fn fill<G: Gate + Sync, R: Threads + Wait + Sync>(
    rt: &R,
    alloc: Global,
    gate: &G,
    inputs: &[Vec<u8>],
) -> Result<Sites, WorkFault>
    requires { are_sites (length inputs.now) ≡ true }
    ensures filled { IfOk result (AreFilled (length inputs.now) (bytes_of inputs.now)) }
    ensures some { IfOk result (λ sites. 0 < length sites.cores.items) }
    ensures ends { IfErr result (EndsWhere (G.may_hold gate.now)) }
{
    fill_sites(rt, alloc, gate, inputs)
}

// Settles the sites. A refusal is passed on with its number.
#[tactic(auto, using(crate::proofs::RunLemmas::settling))]
fn settle_all(alloc: Global, cores: &mut [SiteCore]) -> Result<(), ProgramFault>
    ensures settled { OnOk result (AreSettled cores.old cores.new) }
    ensures refused { IfErr result IsSettlingFault }
{
    match settle(alloc, cores) {
        Ok(()) => Ok(()),
        Err(refusal) => Err(ProgramFault::from(WorkFault::from(refusal))),
    }
}

// The status text of an archive, evaluated and written in as many threads as there are processors. Error: out of memory.
fn status_text<R: Threads + Sync>(
    rt: &R,
    alloc: Global,
    archive: &Archive,
) -> Result<Vec<u8>, AllocError>
    ensures { IfOk result (λ text. text.items ≡ status_text_of archive.now) }
{
    let filed = FiledArchive::of(rt, alloc, archive.messages())?;
    let pieces = filed.status_text_in_pieces(rt)?;
    Ok(pieces.concat(alloc)?)
}

// Settles the sites. Returns the status text of the first of them.
fn settled_status<R: Threads + Sync>(
    rt: &R,
    alloc: Global,
    cores: &mut [SiteCore],
) -> Result<Vec<u8>, ProgramFault>
    requires { 0 < length cores.old }
    ensures settled { OnOk result (AreSettled cores.old cores.new) }
    ensures text { IfOk result (λ text. text.items
        ≡ status_text_of (messages_of (core_in cores.new 0).arrivals)) }
    ensures refused { IfErr result IsSettlingFault }
{
    settle_all(alloc, cores)?;
    Ok(status_text(rt, alloc, cores[0].archive())?)
}

// Settles the sites if all of them were filled, and returns the answer of the run. Otherwise it returns the fault of
// filling them.
fn settle_filled<R: Threads + Sync>(
    rt: &R,
    alloc: Global,
    filled: Result<Sites, WorkFault>,
) -> Result<RunAnswer, ProgramFault>
    requires { IfOk filled (λ sites. 0 < length sites.cores.items) }
    ensures settled { IfOk result (λ answer. IfOk filled (λ sites. IsSettledAnswer sites answer)) }
    ensures first { IfErr filled (λ reason. result ≡ Err (fault_of_work reason)) }
    ensures then { OnOk filled (IfErr result IsSettlingFault) }
{
    let Sites {
        mut cores,
        refusals,
    } = filled?;
    let status = settled_status(rt, alloc, &mut cores)?;
    let (told, refused) = refusals.into_parts();
    Ok(RunAnswer {
        status,
        told,
        refused,
    })
}

// A law: the inputs of a run may be in any order.
fn no_order_matters()
    ensures { NoOrderMatters }
{}

/// Fills one site from each input, numbered from 1, in parallel, and then settles the sites. Workers on threads of its
/// own fill each site, through a desk that is closed with all their receipts.
/// The answer is the status text of all messages that are read from the inputs. It does not depend on the order of the
/// inputs, on the schedule of the threads, or on what came through their channels.
/// Each line that reports a refused line begins with the number of its input, as in `file 2 line 1: 31`.
/// Settling hands every entry to every site, so its time grows with the number of messages times the number of sites.
///
/// Error: `Usage` (64) exactly if there are not 1 to 16 inputs. Every other error is returned after
/// all workers have ended, the first of these:
/// - `NoWorker` (67): a thread could not be started;
/// - `Memory` (65);
/// - `Held` (61): the gate held a worker;
/// - `Refused` (66) with the least number of a refused call;
/// - `Refused` (66) with 53 or 54, for the first site whose desk is not closed;
/// - `Refused` (66) with 42, 43 or 44, for sites that cannot be settled.
#[tactic(auto, using(crate::proofs::RunLemmas::run_ends, crate::proofs::RunLemmas::settling_ends))]
pub fn run_sites<G: Gate + Sync, R: Threads + Wait + Sync>(
    rt: &R,
    alloc: Global,
    gate: &G,
    inputs: Vec<Vec<u8>>,
) -> Result<RunAnswer, ProgramFault>
    ensures status { IfOk result (λ answer. answer.status.items
        ≡ status_text_of (set_of_all (bytes_of inputs.items))) }
    ensures told { IfOk result (λ answer. string_bytes answer.told ≡ told_from 1 (bytes_of inputs.items)) }
    ensures refused { IfOk result (λ answer. answer.refused ≡ refused_in (bytes_of inputs.items)) }
    ensures usage { (result ≡ Err fault.Usage) ↔ (are_sites (length inputs.items) ≡ false) }
    ensures ends { IfErr result (RunEndsWhere (G.may_hold gate.now)) }
    ensures any_order { NoOrderMatters }
{
    // for the clause `any_order`
    no_order_matters();
    if !are_sites(inputs.len()) {
        return Err(ProgramFault::Usage);
    }
    let sites = fill(rt, alloc, gate, &inputs);
    drop(inputs);
    settle_filled(rt, alloc, sites)
}

/// Fills a site from each input, and settles the sites. The answer is the status text of all messages that are read from the
/// inputs, and the refused lines, each with its input's number. No gate holds the workers of the sites.
/// Errors: `Usage` (64) if there are not 1 to 16 inputs; `Memory` (65); `Refused` (66) if a call at a site is
/// refused; `NoWorker` (67) if a thread for a worker cannot be started.
#[tactic(auto, using(crate::proofs::RunFaults::ends_settling))]
pub fn answer_of_inputs<T: Threads + Wait + Sync>(
    rt: &T,
    alloc: Global,
    inputs: Vec<Vec<u8>>,
) -> Result<ProgramAnswer, ProgramFault>
    ensures text { IfOk result (λ answer. joined answer.pieces.items ≡ status_text_of (set_of_all (bytes_of inputs.items))) }
    ensures told { IfOk result (λ answer. string_bytes answer.refusals ≡ told_from 1 (bytes_of inputs.items)) }
    ensures refused { IfOk result (λ answer. answer.refused ≡ refused_in (bytes_of inputs.items)) }
    ensures usage { result ≡ Err fault.Usage → are_sites (length inputs.items) ≡ false }
    ensures faults { IfErr result EndsSettling }
    ensures unwritten { IfErr result (λ e. e ≢ fault.Write) }
{
    let RunAnswer {
        status,
        told,
        refused,
    } = run_sites(rt, alloc, &FreeGate, inputs)?;
    Ok(ProgramAnswer {
        pieces: one_piece(alloc, status)?,
        refusals: told,
        refused,
    })
}
