//! The worker that queries a site while the others work.

ghost use Rattle.std.specs.Prelude.{◌≡◌, [], length, IfErr, IfOk, OnOk};
ghost use mathlib.Core.List.{IsPrefix};
ghost use Rattle.sct_case.specs.Statuses.{as_standing};
ghost use Rattle.sct_delta.specs.Entries.{messages_of};
ghost use Rattle.sct_view.specs.Answers.{status_of};
ghost use Rattle.sct_workers.specs.Kept.{Keeps};
ghost use Rattle.sct_set.specs.Contents.{contents_of};
ghost use Rattle.sct_workers.specs.Holds.{WorkerEndsWhere};

use crate::fault::WorkFault;
use crate::gate::{Gate, Point};
use crate::kept::{Kept, Takes};
use crate::run::{Run, pass};
use crate::senders::Note;
use crossbeam_channel::Receiver;
use sct_case::Status;
use sct_desk::{Answer, Query, Receipt, Site};
use std::alloc::Global;
use std::sync::Wait;

// Learns the receipt of a note, and queries its transfer. The answer is based on all that the receipt shows.
#[tactic(auto, using(crate::proofs::Holding::desk_ends, crate::proofs::MoreKept::shown_to_query))]
fn query_note<J: Site + Takes>(
    alloc: Global,
    query: &mut Query,
    note: &Note<J>,
) -> Result<Answer<Status>, WorkFault>
    requires { (query.old.book ≡ J.book) × (query.old.site ≡ J.number) }
    ensures same { (query.new.site ≡ query.old.site) × (query.new.book ≡ query.old.book) }
    ensures learned { OnOk result (IsPrefix note.now.receipt.shown query.new.seen) }
    ensures front { IfOk result (λ answer. answer.front ≡ length query.new.seen) }
    ensures value { IfOk result (λ answer. as_standing answer.value
        ≡ status_of (messages_of query.new.seen) note.now.transfer) }
    ensures ends { IfErr result (WorkerEndsWhere (λ point. ⊥)) }
{
    query.learn(&note.receipt);
    Ok(query.status(alloc, &note.transfer)?)
}

// Queries the transfer of a note, and passes the gate with the answer. Returns the answer and the receipt.
#[tactic(auto, using(crate::proofs::Holding::worker_no_gate))]
fn answer_note<J: Site + Takes, G: Gate, R: Wait>(
    run: &Run<'_, G, R>,
    query: &mut Query,
    site: u16,
    note: Note<J>,
) -> Result<(Answer<Status>, Receipt), WorkFault>
    requires query { (query.old.book ≡ J.book) × (query.old.site ≡ J.number) }
    requires site { site ≡ J.number }
    ensures same { (query.new.site ≡ query.old.site) × (query.new.book ≡ query.old.book) }
    ensures learned { IfOk result (λ t. IsPrefix t.1.shown query.new.seen) }
    ensures front { IfOk result (λ t. t.0.front ≡ length query.new.seen) }
    ensures value { IfOk result (λ t. as_standing t.0.value ≡ status_of (messages_of query.new.seen) note.transfer) }
    ensures receipt { IfOk result (λ t. t.1 ≡ note.receipt) }
    ensures keeps { IfOk result (λ t. Keeps J.book J.number J.group (contents_of []) t.1) }
    ensures ends { IfErr result (WorkerEndsWhere (G.may_hold run.now.gate.now)) }
{
    let answer = query_note(run.alloc, query, &note)?;
    pass(run, Point::Answered { site })?;
    Ok((answer, note.into_receipt()))
}

/// Queries the transfers of the notes that arrive, until the site's intake worker has ended. Returns the receipts of the
/// notes.
pub(crate) fn answer_notes<J: Site + Takes, G: Gate, R: Wait>(
    run: &Run<'_, G, R>,
    query: Query,
    site: u16,
    notes: Receiver<Note<J>>,
) -> Result<Kept<J>, WorkFault>
    requires query { (query.book ≡ J.book) × (query.site ≡ J.number) }
    requires site { site ≡ J.number }
    ensures { IfErr result (WorkerEndsWhere (G.may_hold run.now.gate.now)) }
{
    let mut query = query;
    let mut kept = Kept::none(run.alloc);
    for note in notes.iter(run.rt) {
        let (_answer, receipt) = answer_note(run, &mut query, site, note)?;
        kept.push(receipt)?;
    }
    Ok(kept)
}
