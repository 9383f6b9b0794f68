//! The worker that takes a site's messages.

ghost use Rattle.std.specs.Arc.{arc_value};
ghost use Rattle.std.specs.FinSet as set;
ghost use Rattle.std.specs.Prelude.{◌≡◌, ◌≤◌, ◌-◌, [], true, length, IfErr, IfOk, IfSome, OnOk};
ghost use Rattle.std.specs.List.{slice_get};
ghost use Rattle.sct_message.specs.Keys.{transfers_of};
ghost use Rattle.sct_message.specs.Sets.{messages_in};
ghost use Rattle.sct_workers.specs.Kept.{AllShown, is_shown, Keeps};
ghost use Rattle.sct_workers.specs.declared.fault.WorkFault.TheVariants as fault;
ghost use Rattle.sct_set.specs.Contents.{contents_of};
ghost use Rattle.sct_workers.specs.Exchanging.{IsNumbered};
ghost use Rattle.sct_workers.specs.Holds.{EndsWhere};
ghost use Rattle.sct_workers.specs.Points.{IsTakeOf};
ghost use Rattle.sct_workers.specs.Shown.{ShowsMore};

use crate::fault::WorkFault;
use crate::gate::{Gate, Point};
use crate::kept::{Kept, Takes};
use crate::receipts::{publish_for_receipt, take_for_receipt};
use crate::run::{Passed, Run, pass};
use crate::senders::Senders;
use sct_desk::{Desk, Receipt, Site};
use sct_message::{Message, TransferKey};
use sct_site::Took;
use std::sync::{Arc, Wait};

// Takes the k-th of the site's messages after its point was passed, and keeps the receipt.
#[tactic(auto, using(crate::proofs::MoreKept::shown_last, crate::proofs::MoreKept::shows_more, crate::proofs::Refusing::takes_number))]
fn take_message<J: Site + Takes, H: Wait + Drop, G, R: Wait>(
    run: &Run<'_, G, R>,
    desk: &Desk<J, H>,
    passed: Passed,
    k: u64,
    messages: &[Arc<Message>],
    kept: &mut Kept<J>,
) -> Result<Took, WorkFault>
    requires passed { IsTakeOf J.number k passed.point }
    requires place { (1 ≤ k) × (k ≤ length messages.now) }
    requires messages { J.messages ≡ contents_of (messages_in messages.now) }
    ensures shown { OnOk result (IfSome (slice_get messages.now (k - 1))
        (λ message. is_shown kept.new.receipts.items (arc_value message) ≡ true)) }
    ensures more { OnOk result (ShowsMore kept.old.receipts.items kept.new.receipts.items) }
    ensures numbered { IfOk result IsNumbered }
    ensures memory { IfErr result (λ e. e ≡ fault.Memory) }
{
    // The point is used up: it was passed for this take alone.
    drop(passed);
    let message = messages[(k - 1) as usize].clone()?;
    let (took, receipt) = take_for_receipt(run.rt, run.alloc, desk, message)?;
    kept.push(receipt)?;
    Ok(took)
}

// The first transfer of a message.
fn first_transfer(message: &Message) -> Option<TransferKey>
    ensures { result ≡ slice_get (transfers_of message.now) 0 }
{
    message.transfer(0)
}

// Sends the query worker a receipt and the message's first transfer. Returns the receipt if it cannot be sent.
#[tactic(auto, using(crate::proofs::MoreKept::first_of_one))]
fn send_first_transfer<J: Site + Takes, R: Wait>(
    rt: &R,
    senders: &Senders<J>,
    receipt: Receipt,
    message: &Message,
) -> Option<Receipt>
    requires keeps { Keeps J.book J.number J.group (contents_of []) receipt }
    requires taken { set.contains J.messages message.now ≡ true }
    ensures { IfSome result (Keeps J.book J.number J.group (contents_of [])) }
{
    match first_transfer(message) {
        Some(transfer) => senders.send_note(rt, receipt, transfer),
        None => Some(receipt),
    }
}

// Publishes, and sends the query worker the receipt of that and the message's first transfer. A receipt that cannot be sent
// is kept.
#[tactic(auto, using(crate::proofs::MoreKept::shows_more))]
fn publish_message<J: Site + Takes, H: Wait + Drop, G, R: Wait>(
    run: &Run<'_, G, R>,
    desk: &Desk<J, H>,
    message: &Message,
    senders: &Senders<J>,
    kept: &mut Kept<J>,
) -> Result<(), WorkFault>
    requires { set.contains J.messages message.now ≡ true }
    ensures more { OnOk result (ShowsMore kept.old.receipts.items kept.new.receipts.items) }
    ensures memory { IfErr result (λ e. e ≡ fault.Memory) }
{
    let receipt = publish_for_receipt(run.rt, run.alloc, desk)?;
    if let Some(back) = send_first_transfer(run.rt, senders, receipt, message) {
        kept.push(back)?;
    }
    Ok(())
}

// Takes the k-th of the site's messages after its point was passed, publishes it, and sends a new entry to the other sites.
fn take_and_send<J: Site + Takes, H: Wait + Drop, G, R: Wait>(
    run: &Run<'_, G, R>,
    desk: &Desk<J, H>,
    passed: Passed,
    k: u64,
    messages: &[Arc<Message>],
    senders: &Senders<J>,
    kept: &mut Kept<J>,
) -> Result<(), WorkFault>
    requires passed { IsTakeOf J.number k passed.point }
    requires place { (1 ≤ k) × (k ≤ length messages.now) }
    requires messages { J.messages ≡ contents_of (messages_in messages.now) }
    ensures shown { OnOk result (IfSome (slice_get messages.now (k - 1))
        (λ message. is_shown kept.new.receipts.items (arc_value message) ≡ true)) }
    ensures more { OnOk result (ShowsMore kept.old.receipts.items kept.new.receipts.items) }
    ensures memory { IfErr result (λ e. e ≡ fault.Memory) }
{
    let site = passed.site();
    let took = take_message(run, desk, passed, k, messages, kept)?;
    let message = &messages[(k - 1) as usize];
    publish_message(run, desk, message, senders, kept)?;
    senders.send_entry(run.rt, site, &took, message);
    Ok(())
}

/// Takes the messages of a site in their order. Returns the receipts, which show all of them.
#[tactic(auto, using(crate::proofs::Holding::worker_ends, crate::proofs::MoreKept::all_shown))]
pub(crate) fn take_messages<J: Site + Takes, H: Wait + Drop, G: Gate, R: Wait>(
    run: &Run<'_, G, R>,
    desk: &Desk<J, H>,
    site: u16,
    messages: &[Arc<Message>],
    senders: Senders<J>,
) -> Result<Kept<J>, WorkFault>
    requires site { site ≡ J.number }
    requires messages { J.messages ≡ contents_of (messages_in messages.now) }
    ensures shown { IfOk result (λ kept. AllShown J.messages kept.receipts.items) }
    ensures ends { IfErr result (EndsWhere (G.may_hold run.now.gate.now)) }
{
    let mut kept = Kept::none(run.alloc);
    for place in 0..messages.len() {
        let k = place as u64 + 1;
        let passed = pass(run, Point::Take { site, k })?;
        take_and_send(run, desk, passed, k, messages, &senders, &mut kept)?;
    }
    Ok(kept)
}
