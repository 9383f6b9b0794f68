//! A set of messages filed by transfer, its status text in pieces, and its totals text. Each transfer is evaluated where its
//! lines are written or its shares are added, and its case is not kept.

ghost use Rattle.std.specs.Prelude.{◌≡◌, ◌++◌, ◌<◌, ◌≤◌, IfOk, OnOk, string_bytes};
ghost use Rattle.std.specs.List.{flat_map};
ghost use Rattle.std.specs.Thread.{IsSync};
ghost use Rattle.indexmap.specs.IndexMap.{IsUnique};
ghost use Rattle.sct_message.specs.Sets.{messages_in};
ghost use Rattle.sct_message.specs.Transfers.{keys_of};
ghost use Rattle.sct_set.specs.Contents.{contents_of};
ghost use Rattle.sct_set.specs.Pieces.{joined};
ghost use Rattle.sct_view.specs.Filed.{has_items, IsFiled};
ghost use Rattle.sct_view.specs.Kept.{same_key};
ghost use Rattle.sct_view.specs.Listed.{keys_with};
ghost use Rattle.sct_view.specs.StatusText.{lines_on, status_text_of};
ghost use Rattle.sct_view.specs.TotalsText.{totals_text_of};

use crate::build::{IndexedMessages, gather, halvings, planned_on};
use crate::by_transfer::ByTransfer;
use crate::status_text::push_case;
use crate::sums::{banks_in_order, lines_of, sums_of};
use rayon::prelude::*;
use sct_case::CaseFault;
use sct_message::{Message, TransferKey, keys_are_ordered};
use sct_set::Archive;
use std::alloc::{AllocError, Global};
use std::marker::Model;
use std::sync::Arc;
use std::thread::{Threads, join};

// The transfers under which messages are filed, in the order of the index.
fn filed_keys(alloc: Global, index: &ByTransfer) -> Result<Vec<TransferKey>, AllocError>
    ensures keys { IfOk result (λ keys. keys.items ≡ keys_with has_items index.now.entries) }
    ensures unique { IfOk result (λ keys. IsUnique same_key index.now) }
{
    let mut keys = Vec::with_capacity(alloc, index.len())?;
    for (transfer, bucket) in index {
        if !bucket.is_empty() {
            keys.push(transfer.copy())?;
        }
    }
    Ok(keys)
}

// The transfers of an archive, ascending, sorted in several threads.
fn filed_in_order<R: Threads + Sync>(
    rt: &R,
    alloc: Global,
    archive: &Archive,
    index: &ByTransfer,
) -> Result<Vec<TransferKey>, AllocError>
    requires { IsFiled archive.now index.now }
    ensures { IfOk result (λ keys. keys.items ≡ keys_of archive.now) }
{
    keys_are_ordered();
    let mut keys = filed_keys(alloc, index)?;
    par_sort(rt, alloc, &mut keys)?;
    Ok(keys)
}

// Appends the lines of a transfer, which is evaluated for them.
fn push_lines(
    alloc: Global,
    archive: &Archive,
    index: &ByTransfer,
    text: &mut String,
    transfer: &TransferKey,
) -> Result<(), AllocError>
    requires { IsFiled archive.now index.now }
    ensures { OnOk result (string_bytes text.new ≡ string_bytes text.old ++ lines_on archive.now transfer.now) }
{
    let planned = planned_on(alloc, archive, index, transfer)?;
    push_case(alloc, text, transfer, &planned.case)
}

// The lines of each of the transfers, as one piece.
fn one_piece(
    alloc: Global,
    archive: &Archive,
    index: &ByTransfer,
    transfers: &[TransferKey],
) -> Result<Vec<Vec<u8>>, AllocError>
    requires { IsFiled archive.now index.now }
    ensures { IfOk result (λ pieces. joined pieces.items ≡ flat_map (lines_on archive.now) transfers.now) }
{
    let mut text = String::new(alloc);
    for transfer in transfers {
        push_lines(alloc, archive, index, &mut text, transfer)?;
    }
    let mut pieces = Vec::new(alloc);
    pieces.push(text.into_bytes())?;
    Ok(pieces)
}

// The lines of each of the transfers. The list is halved `halvings` times, and each part is one piece.
#[cycle(halves)]
fn lines_by_halves<R: Threads + Sync>(
    rt: &R,
    alloc: Global,
    archive: &Archive,
    index: &ByTransfer,
    transfers: &[TransferKey],
    halvings: u32,
) -> Result<Vec<Vec<u8>>, AllocError>
    requires filed { IsFiled archive.now index.now }
    requires few { halvings ≤ 16 }
    ensures { IfOk result (λ pieces. joined pieces.items ≡ flat_map (lines_on archive.now) transfers.now) }
{
    if halvings == 0 {
        return one_piece(alloc, archive, index, transfers);
    }
    let (front, back) = transfers.split_at(transfers.len() / 2);
    let (first, second) = join(
        rt,
        || -> Result<Vec<Vec<u8>>, AllocError>
            requires { IsSync R.row × (0 < halvings) × (halvings ≤ 16) × IsFiled archive.now index.now }
            ensures { IfOk result (λ pieces. joined pieces.items
                ≡ flat_map (lines_on archive.entry.now) front.entry.now) }
        { lines_by_halves(rt, alloc, archive, index, front, halvings - 1) },
        || -> Result<Vec<Vec<u8>>, AllocError>
            requires { IsSync R.row × (0 < halvings) × (halvings ≤ 16) × IsFiled archive.now index.now }
            ensures { IfOk result (λ pieces. joined pieces.items
                ≡ flat_map (lines_on archive.entry.now) back.entry.now) }
        { lines_by_halves(rt, alloc, archive, index, back, halvings - 1) },
    );
    let mut pieces = first?;
    let mut more = second?;
    pieces.append(&mut more)?;
    Ok(pieces)
}

/// Messages, each held once, filed by transfer. It takes less than a view where the status text or the totals text alone is asked for.
#[derive(Drop)]
pub struct FiledArchive {
    alloc: Global,
    archive: Archive,
    index: ByTransfer,
}

impl Model for FiledArchive {
    ghost use Rattle.std.specs.FinSet as set;
    ghost use Rattle.sct_message.specs.contracts.messages.Message as message;
    ghost use Rattle.sct_message.specs.Order.{message_order};
    ghost use Rattle.sct_view.specs.Filed.{IsFiled};

    ghost Value = { set.FinSet message_order };

    ghost coded = { set.code message.the_row.coded };

    ghost view = { λ f. f.archive };

    ghost invariant = { λ f. IsFiled f.archive f.index };
}

impl FiledArchive {
    /// The set of the messages, which may be in any order and may repeat. Error: `Memory` (39).
    /// It is filled in two threads. If a thread cannot be started, another thread does its work.
    pub fn of<R: Threads + Sync>(
        rt: &R,
        alloc: Global,
        messages: &[Arc<Message>],
    ) -> Result<Self, CaseFault>
        ensures { IfOk result (λ filed. filed ≡ contents_of (messages_in messages.now)) }
    {
        let IndexedMessages { archive, index } = gather(rt, alloc, messages)?;
        Ok(FiledArchive {
            alloc,
            archive,
            index,
        })
    }

    /// The status text in pieces, one after another, evaluated and written in as many threads as there are processors.
    /// If a thread cannot be started, another thread does its work. Error: `Memory` (39).
    #[tactic(auto, unfolding(crate::specs::StatusText::status_text_of))]
    pub fn status_text_in_pieces<R: Threads + Sync>(
        &self,
        rt: &R,
    ) -> Result<Vec<Vec<u8>>, CaseFault>
        ensures { IfOk result (λ pieces. joined pieces.items ≡ status_text_of self.now) }
    {
        let transfers = filed_in_order(rt, self.alloc, &self.archive, &self.index)?;
        let halvings = halvings(rt, transfers.len());
        Ok(lines_by_halves(
            rt,
            self.alloc,
            &self.archive,
            &self.index,
            &transfers,
            halvings,
        )?)
    }

    /// The totals text in bytes. The shares of the transfers are summed in as many threads as there are processors.
    /// If a thread cannot be started, another thread does its work. Error: `Memory` (39).
    #[tactic(auto, unfolding(crate::specs::TotalsText::totals_text_of))]
    pub fn totals_text<R: Threads + Sync>(&self, rt: &R) -> Result<Vec<u8>, CaseFault>
        ensures { IfOk result (λ text. text.items ≡ totals_text_of self.now) }
    {
        let totals = sums_of(rt, self.alloc, &self.archive, &self.index)?;
        let banks = banks_in_order(self.alloc, &totals)?;
        Ok(lines_of(self.alloc, &totals, &banks)?)
    }
}
