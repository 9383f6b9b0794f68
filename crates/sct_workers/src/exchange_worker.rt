//! The worker that accepts the entries of other sites.

ghost use Rattle.std.specs.Prelude.{◌≡◌, [], ◌∷◌, Err, IfErr, IfOk, OnOk};
ghost use Rattle.sct_workers.specs.Exchanging.{accepted_by, IsHandedOver};
ghost use Rattle.sct_workers.specs.Holds.{WorkerEndsWhere};

use crate::fault::WorkFault;
use crate::gate::{Gate, Point};
use crate::kept::{Kept, Takes};
use crate::receipts::accept_for_receipt;
use crate::run::{Run, pass};
use crate::senders::NewEntry;
use crossbeam_channel::Receiver;
use sct_delta::{Delta, DeltaFault, Entry};
use sct_desk::{Desk, Site};
use sct_site::Accepted;
use std::alloc::{AllocError, Global};
use std::sync::Wait;

// The list of one entry.
fn list_of(alloc: Global, entry: NewEntry) -> Result<Vec<Entry>, AllocError>
    ensures { IfOk result (λ entries. entries.items ≡ entry.entry ∷ []) }
{
    let mut entries = Vec::new(alloc);
    entries.push(entry.into_entry())?;
    Ok(entries)
}

// The delta of one entry.
fn delta_of(alloc: Global, entry: NewEntry) -> Result<Delta, WorkFault>
    ensures entries { IfOk result (λ delta. delta ≡ entry.entry ∷ []) }
    ensures ends { IfErr result (WorkerEndsWhere (λ point. ⊥)) }
{
    let entries = list_of(alloc, entry)?;
    match Delta::of(entries) {
        Ok(delta) => Ok(delta),
        Err(refusal) => Err(WorkFault::from(refusal)),
    }
}

// Whether an entry was accepted, by the answer to its delta. A missing entry before it is not a fault.
fn is_accepted(answer: Result<Accepted, DeltaFault>) -> Result<bool, WorkFault>
    ensures { result ≡ accepted_by answer }
{
    match answer {
        Ok(_) => Ok(true),
        Err(DeltaFault::Gap { .. }) => Ok(false),
        Err(refusal) => Err(WorkFault::from(refusal)),
    }
}

// Whether an entry was accepted, by the answer to its delta, if the receipt of the call was kept.
fn accepted_if_kept(
    answer: Result<Accepted, DeltaFault>,
    kept: Result<(), WorkFault>,
) -> Result<bool, WorkFault>
    ensures kept { OnOk kept (result ≡ accepted_by answer) }
    ensures lost { IfErr kept (λ lost. result ≡ Err lost) }
{
    kept?;
    is_accepted(answer)
}

// Hands an entry to the desk and keeps the receipt. Returns whether the entry was accepted.
fn accept_entry<J: Site + Takes, H: Wait + Drop, G, R: Wait>(
    run: &Run<'_, G, R>,
    desk: &Desk<J, H>,
    entry: NewEntry,
    kept: &mut Kept<J>,
) -> Result<bool, WorkFault>
    ensures handed { IfOk result (IsHandedOver J.number J.group entry.entry
        kept.old.receipts.items kept.new.receipts.items) }
    ensures ends { IfErr result (WorkerEndsWhere (λ point. ⊥)) }
{
    let delta = delta_of(run.alloc, entry)?;
    let (answer, receipt) = accept_for_receipt(run.rt, run.alloc, desk, &delta)?;
    accepted_if_kept(answer, kept.push(receipt))
}

/// Accepts the entries that arrive, until the intake workers of all other sites have ended. Returns the receipts.
#[tactic(auto, using(crate::proofs::Holding::worker_no_gate))]
pub(crate) fn accept_entries<J: Site + Takes, H: Wait + Drop, G: Gate, R: Wait>(
    run: &Run<'_, G, R>,
    desk: &Desk<J, H>,
    site: u16,
    inbox: Receiver<NewEntry>,
) -> Result<Kept<J>, WorkFault>
    requires { site ≡ J.number }
    ensures { IfErr result (WorkerEndsWhere (G.may_hold run.now.gate.now)) }
{
    let mut kept = Kept::none(run.alloc);
    for entry in inbox.iter(run.rt) {
        if accept_entry(run, desk, entry, &mut kept)? {
            pass(run, Point::Accepted { site })?;
        }
    }
    Ok(kept)
}
