//! The labels of what is kept: those of a message on a transfer that is not done.

ghost use Rattle.std.specs.Prelude.{◌≡◌, ◌<◌, ℕ, length, slice_index, IfOk, OnOk};
ghost use Rattle.sct_message.specs.Sets.{messages_in};
ghost use Rattle.sct_message.specs.Transfers.{keys_of};
ghost use Rattle.sct_message.specs.declared.keys.TransferKey.{TransferKey as TransferOf};
ghost use Rattle.sct_set.specs.Contents.{contents_of};
ghost use Rattle.sct_view.specs.Kept.{same_key};
ghost use Rattle.sct_keep.specs.Marks.{AreMarkedMore, AreMarks, HaveMarks, IsLate, IsUnsettled, is_marked};
ghost use Rattle.sct_keep.specs.Ties.{AreFirsts, AreGroups, HasFirst};

use crate::done::{is_late, is_settled};
use crate::ties::{Firsts, Groups};
use sct_case::CaseFault;
use sct_element::Day;
use sct_message::{Message, TransferKey};
use sct_set::buckets::items_at;
use sct_view::View;
use std::alloc::Global;
use std::sync::Arc;

// Marks the label of a number.
fn mark(marks: &mut [bool], labels: &[usize], number: usize)
    requires number { number < length labels.now }
    requires marks { HaveMarks labels.now marks.now }
    ensures { AreMarkedMore (λ i. i ≡ number) labels.now marks.old marks.new }
{
    marks[labels[number]] = true;
}

// Marks the labels of the messages that were not created before the day.
fn mark_late(marks: &mut [bool], labels: &[usize], day: &Day, messages: &[Arc<Message>])
    requires labels { length labels.now ≡ length messages.now }
    requires marks { HaveMarks labels.now marks.now }
    ensures { AreMarkedMore (IsLate day.now (messages_in messages.now)) labels.now marks.old marks.new }
{
    for number in 0..messages.len() {
        if is_late(day, &messages[number]) {
            mark(marks, labels, number);
        }
    }
}

// Marks the label of a transfer, which its messages share.
fn mark_transfer(marks: &mut [bool], labels: &[usize], first: &Firsts, transfer: &TransferKey)
    requires first { (i : ℕ) → HasFirst same_key first.now transfer.now i → i < length labels.now }
    requires marks { HaveMarks labels.now marks.now }
    ensures { AreMarkedMore (HasFirst same_key first.now transfer.now) labels.now marks.old marks.new }
{
    if let Some(number) = items_at(first, transfer).first() {
        mark(marks, labels, *number);
    }
}

// Marks the labels of the transfers that are not settled. Error: `Memory` (39).
fn mark_unsettled(
    marks: &mut [bool],
    labels: &[usize],
    first: &Firsts,
    view: &View,
) -> Result<(), CaseFault>
    requires first { (t : TransferOf) (i : ℕ) → HasFirst same_key first.now t i → i < length labels.now }
    requires marks { HaveMarks labels.now marks.now }
    ensures { OnOk result (AreMarkedMore (IsUnsettled view.now first.now (keys_of view.now))
        labels.now marks.old marks.new) }
{
    let transfers = view.keys()?;
    for transfer in &transfers {
        if !is_settled(view, transfer)? {
            mark_transfer(marks, labels, first, transfer);
        }
    }
    Ok(())
}

/// A mark for each label, set if a message of the label is on a transfer that is not done. Error: `Memory` (39).
/// Near linear in the messages and their transfers, beside what `is_settled` takes for each transfer.
pub(crate) fn marks_of(
    alloc: Global,
    view: &View,
    day: &Day,
    messages: &[Arc<Message>],
    groups: &Groups,
) -> Result<Vec<bool>, CaseFault>
    requires held { contents_of (messages_in messages.now) ≡ view.now }
    requires groups { AreGroups (messages_in messages.now) groups.now.labels.items }
    requires first { AreFirsts (messages_in messages.now) groups.now.first }
    ensures { IfOk result (λ marks. AreMarks day.now view.now (messages_in messages.now)
        groups.now.labels.items (is_marked marks.items)) }
{
    let mut marks = vec![in alloc; false; messages.len()]?;
    let row: &mut [bool] = &mut marks;
    mark_late(row, &groups.labels, day, messages);
    mark_unsettled(row, &groups.labels, &groups.first, view)?;
    Ok(marks)
}
