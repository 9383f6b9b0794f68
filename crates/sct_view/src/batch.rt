//! The change that a batch makes: its fresh messages, the transfers that these touch, and their new cases. It is found
//! while the view stays unchanged.

ghost use Rattle.std.specs.Prelude.{◌*◌, ◌+◌, ◌++◌, ◌<◌, ◌^◌, ◌≡◌, ◌≤◌, IfOk, OnOk, false, filter, if◌then◌else◌, length, map, true};
ghost use Rattle.std.specs.Arc.{arc_value};
ghost use Rattle.std.specs.FinSet as set;
ghost use Rattle.std.specs.List.{flat_map};
ghost use Rattle.sct_message.specs.Ascending.{ascending};
ghost use Rattle.sct_message.specs.Order.{message_order};
ghost use Rattle.sct_message.specs.Sets.{in_order, messages_in};
ghost use Rattle.sct_message.specs.Transfers.{is_on};
ghost use Rattle.sct_message.specs.declared.draft.Draft.{Draft as DraftOf};
ghost use Rattle.sct_set.specs.Contents.{contents_of};
ghost use Rattle.sct_view.specs.Changes.{change_in, changes_of, touched_by_one};
ghost use Rattle.sct_view.specs.Kept.{case_of};
ghost use Rattle.sct_view.specs.Touched.{fresh_of, touched_by};

use crate::by_transfer::{by_transfer, on_transfer, push_keys};
use crate::case::Planned;
use crate::evaluation::evaluate;
use crate::view::View;
use sct_message::{Message, TransferKey};
use sct_set::Archive;
use std::alloc::{AllocError, Global};
use std::sync::Arc;

/// Adds a message to the fresh ones, if it is not held.
fn add_fresh(held: &Archive, fresh: &mut Archive, message: &Arc<Message>) -> Result<(), AllocError>
    ensures { OnOk result (fresh.new ≡ (if set.contains held.now (arc_value message.now) then fresh.old
        else set.insert fresh.old (arc_value message.now))) }
{
    if held.holds(message) {
        return Ok(());
    }
    fresh.add(message.clone()?)?;
    Ok(())
}

/// The messages of a batch that are not held.
pub(crate) fn fresh_among(
    alloc: Global,
    held: &Archive,
    batch: &[Arc<Message>],
) -> Result<Archive, AllocError>
    ensures { IfOk result (λ fresh. fresh ≡ fresh_of held.now (contents_of (messages_in batch.now))) }
{
    let mut fresh = Archive::new(alloc);
    for message in batch {
        add_fresh(held, &mut fresh, message)?;
    }
    Ok(fresh)
}

/// Appends the transfers that one fresh message touches: its own, and those of the held message that it contradicts.
fn push_touched(
    held: &Archive,
    found: &mut Vec<TransferKey>,
    message: &Message,
) -> Result<(), AllocError>
    ensures touched { OnOk result (found.new.items ≡ found.old.items ++ touched_by_one held.now message.now) }
    ensures few { OnOk result (length found.new.items ≤ length found.old.items + 200) }
{
    push_keys(found, message)?;
    let Some(other) = held.undisputed(&message.identity()) else {
        return Ok(());
    };
    push_keys(found, other)?;
    Ok(())
}

/// The transfers that fresh messages touch, message by message.
fn touched_one_by_one(
    alloc: Global,
    held: &Archive,
    fresh: &[Arc<Message>],
) -> Result<Vec<TransferKey>, AllocError>
    ensures touched { IfOk result (λ found. found.items
        ≡ flat_map (touched_by_one held.now) (messages_in fresh.now)) }
    ensures few { IfOk result (λ found. length found.items ≤ 200 * length fresh.now) }
{
    let mut found = Vec::new(alloc);
    for message in fresh {
        push_touched(held, &mut found, message)?;
    }
    Ok(found)
}

/// The transfers that fresh messages touch, each once, ascending.
pub(crate) fn touched(
    alloc: Global,
    held: &Archive,
    fresh: &Archive,
) -> Result<Vec<TransferKey>, AllocError>
    requires fresh { (m : DraftOf) → set.contains fresh.now m ≡ true → set.contains held.now m ≡ false }
    ensures all { IfOk result (λ found. found.items ≡ touched_by held.now fresh.now) }
    ensures few { IfOk result (λ found. length found.items ≤ 200 * set.len fresh.now) }
{
    let mut found = touched_one_by_one(alloc, held, fresh.messages())?;
    found.sort()?;
    found.dedup();
    Ok(found)
}

/// Appends handles to the messages.
fn append(gathered: &mut Vec<Arc<Message>>, messages: &[Arc<Message>]) -> Result<(), AllocError>
    ensures { OnOk result (messages_in gathered.new.items
        ≡ messages_in gathered.old.items ++ messages_in messages.now) }
{
    for message in messages {
        gathered.push(message.clone()?)?;
    }
    Ok(())
}

/// The change that a batch makes, found and evaluated while the view stays unchanged.
#[derive(Drop)]
pub(crate) struct Replanned {
    /// The messages of the batch that are not held.
    pub(crate) fresh: Archive,
    /// The new case of each transfer that the batch touches.
    pub(crate) planned: Vec<Planned>,
    /// How many transfers were evaluated.
    pub(crate) evaluations: u64,
}

impl View {
    /// Appends the messages of a transfer's case.
    fn append_kept(
        &self,
        gathered: &mut Vec<Arc<Message>>,
        transfer: &TransferKey,
    ) -> Result<(), AllocError>
        ensures { OnOk result (messages_in gathered.new.items
            ≡ messages_in gathered.old.items ++ (case_of self.now transfer.now).clean
            ++ (case_of self.now transfer.now).contradicted) }
    {
        let Some(case) = self.case_on(transfer) else {
            return Ok(());
        };
        append(gathered, &case.clean)?;
        append(gathered, &case.contradicted)?;
        Ok(())
    }

    /// The messages of a transfer's case, followed by fresh ones.
    pub(crate) fn gather(
        &self,
        transfer: &TransferKey,
        fresh: &[Arc<Message>],
    ) -> Result<Vec<Arc<Message>>, AllocError>
        ensures { IfOk result (λ gathered. messages_in gathered.items
            ≡ (case_of self.now transfer.now).clean
            ++ (case_of self.now transfer.now).contradicted ++ messages_in fresh.now) }
    {
        let mut gathered = Vec::new(self.alloc);
        self.append_kept(&mut gathered, transfer)?;
        append(&mut gathered, fresh)?;
        Ok(gathered)
    }

    /// The new case of a touched transfer, with the evaluation counted. `messages` are the fresh messages on it.
    fn evaluate_anew(
        &self,
        fresh: &Archive,
        transfer: &TransferKey,
        messages: &[Arc<Message>],
        evaluations: &mut u64,
    ) -> Result<Planned, AllocError>
        requires room { evaluations.old < 2 ^ 63 }
        requires case { ascending message_order
            ((case_of self.now transfer.now).clean
            ++ (case_of self.now transfer.now).contradicted ++ messages_in messages.now)
            ≡ filter (is_on transfer.now) (in_order (set.union self.now fresh.now)) }
        ensures case { IfOk result (λ planned. change_in planned
            ≡ (transfer.now, case_of (set.union self.now fresh.now) transfer.now)) }
        ensures counted { OnOk result (evaluations.new ≡ evaluations.old + 1) }
    {
        let gathered = self.gather(transfer, messages)?;
        let case = evaluate(self.alloc, &self.archive, Some(fresh), transfer, &gathered)?;
        *evaluations += 1;
        Ok(Planned {
            transfer: transfer.copy(),
            case,
        })
    }

    /// The new case of each touched transfer, with the fresh messages held too. The evaluations are counted.
    fn evaluate_each(
        &self,
        fresh: &Archive,
        touched: &[TransferKey],
        evaluations: &mut u64,
    ) -> Result<Vec<Planned>, AllocError>
        requires none { evaluations.old ≡ 0 }
        ensures planned { IfOk result (λ planned. map change_in planned.items
            ≡ changes_of (set.union self.now fresh.now) touched.now) }
        ensures counted { OnOk result (evaluations.new ≡ length touched.now) }
    {
        let index = by_transfer(self.alloc, fresh.messages())?;
        let mut planned = Vec::new(self.alloc);
        for transfer in touched {
            let messages = on_transfer(&index, transfer);
            planned.push(self.evaluate_anew(fresh, transfer, messages, evaluations)?)?;
        }
        Ok(planned)
    }

    /// Finds the fresh messages of a batch and the transfers that they touch, and evaluates these transfers.
    pub(crate) fn replan(&self, batch: &[Arc<Message>]) -> Result<Replanned, AllocError>
        ensures fresh { IfOk result (λ plan. plan.fresh ≡ fresh_of self.now (contents_of (messages_in batch.now))) }
        ensures planned { IfOk result (λ plan. map change_in plan.planned.items
            ≡ changes_of (set.union self.now plan.fresh) (touched_by self.now plan.fresh)) }
        ensures counted { IfOk result (λ plan. plan.evaluations ≡ length (touched_by self.now plan.fresh)) }
        ensures few { IfOk result (λ plan. plan.evaluations ≤ 200 * set.len plan.fresh) }
    {
        let fresh = fresh_among(self.alloc, &self.archive, batch)?;
        let touched = touched(self.alloc, &self.archive, &fresh)?;
        let mut evaluations = 0;
        let planned = self.evaluate_each(&fresh, &touched, &mut evaluations)?;
        Ok(Replanned {
            fresh,
            planned,
            evaluations,
        })
    }
}
