//! The archive and the tables of a view, built from all messages: in one thread, or in as many as there are processors.

ghost use Rattle.std.specs.Prelude.{◌≡◌, ◌<◌, ◌≤◌, map, IfOk};
ghost use Rattle.std.specs.Thread.{IsSync};
ghost use Rattle.indexmap.specs.IndexMap.{keys};
ghost use Rattle.sct_message.specs.Sets.{messages_in};
ghost use Rattle.sct_message.specs.declared.keys.TransferKey.{TransferKey as TransferOf};
ghost use Rattle.sct_set.specs.Contents.{contents_of};
ghost use Rattle.sct_view.specs.Changes.{case_after, change_in, changes_of};
ghost use Rattle.sct_view.specs.Filed.{IsFiled, IsFiledBy};
ghost use Rattle.sct_view.specs.Kept.{case_at, case_of, no_messages, AreCasesOf};

use crate::by_transfer::{ByTransfer, by_transfer, on_transfer};
use crate::case::Planned;
use crate::evaluation::evaluate;
use crate::tables::Tables;
use sct_message::{Message, TransferKey};
use sct_set::Archive;
use std::alloc::{AllocError, Global};
use std::sync::Arc;
use std::thread::{Threads, available_parallelism, join};

// The most halvings of a list.
const MOST_HALVINGS: u32 = 16;
// Fewer transfers than this are evaluated in one part.
const WORTH_A_THREAD: usize = 256;

/// The case of a transfer of an archive, from the messages that are filed under it.
pub(crate) fn planned_on(
    alloc: Global,
    archive: &Archive,
    index: &ByTransfer,
    transfer: &TransferKey,
) -> Result<Planned, AllocError>
    requires { IsFiled archive.now index.now }
    ensures { IfOk result (λ planned. change_in planned ≡ (transfer.now, case_of archive.now transfer.now)) }
{
    let messages = on_transfer(index, transfer);
    let case = evaluate(alloc, archive, None, transfer, messages)?;
    Ok(Planned {
        transfer: transfer.copy(),
        case,
    })
}

// The case of each of the transfers, in one part.
fn planned_in_turn(
    alloc: Global,
    archive: &Archive,
    index: &ByTransfer,
    transfers: &[TransferKey],
) -> Result<Vec<Planned>, AllocError>
    requires { IsFiled archive.now index.now }
    ensures { IfOk result (λ planned. map change_in planned.items ≡ changes_of archive.now transfers.now) }
{
    let mut planned = Vec::with_capacity(alloc, transfers.len())?;
    for transfer in transfers {
        planned.push(planned_on(alloc, archive, index, transfer)?)?;
    }
    Ok(planned)
}

// The case of each of the transfers. The list is halved `halvings` times, and each part is evaluated in turn.
#[cycle(halves)]
fn planned_by_halves<R: Threads + Sync>(
    rt: &R,
    alloc: Global,
    archive: &Archive,
    index: &ByTransfer,
    transfers: &[TransferKey],
    halvings: u32,
) -> Result<Vec<Planned>, AllocError>
    requires filed { IsFiled archive.now index.now }
    requires few { halvings ≤ 16 }
    ensures { IfOk result (λ planned. map change_in planned.items ≡ changes_of archive.now transfers.now) }
{
    if halvings == 0 {
        return planned_in_turn(alloc, archive, index, transfers);
    }
    let (front, back) = transfers.split_at(transfers.len() / 2);
    let (first, second) = join(
        rt,
        || -> Result<Vec<Planned>, AllocError>
            requires { IsSync R.row × (0 < halvings) × (halvings ≤ 16) × IsFiled archive.now index.now }
            ensures { IfOk result (λ planned. map change_in planned.items
                ≡ changes_of archive.entry.now front.entry.now) }
        { planned_by_halves(rt, alloc, archive, index, front, halvings - 1) },
        || -> Result<Vec<Planned>, AllocError>
            requires { IsSync R.row × (0 < halvings) × (halvings ≤ 16) × IsFiled archive.now index.now }
            ensures { IfOk result (λ planned. map change_in planned.items
                ≡ changes_of archive.entry.now back.entry.now) }
        { planned_by_halves(rt, alloc, archive, index, back, halvings - 1) },
    );
    let mut planned = first?;
    let mut more = second?;
    planned.append(&mut more)?;
    Ok(planned)
}

/// How often this many transfers are halved: so often that there are about two parts for each processor.
pub(crate) fn halvings<R: Threads>(rt: &R, transfers: usize) -> u32
    ensures { result ≤ 16 }
{
    if transfers < WORTH_A_THREAD {
        return 0;
    }
    match available_parallelism(rt) {
        Ok(processors) => processors
            .get()
            .saturating_mul(2)
            .ilog2()
            .min(MOST_HALVINGS),
        Err(_) => 0,
    }
}

// An archive of the messages.
fn archive_of(alloc: Global, messages: &[Arc<Message>]) -> Result<Archive, AllocError>
    ensures { IfOk result (λ archive. archive ≡ contents_of (messages_in messages.now)) }
{
    let mut archive = Archive::new(alloc);
    archive.add_all(messages)?;
    Ok(archive)
}

/// An archive of messages, and the same messages by transfer.
#[derive(Drop)]
pub(crate) struct IndexedMessages {
    pub(crate) archive: Archive,
    pub(crate) index: ByTransfer,
}

/// Builds the archive of the messages and files them by transfer, each in a thread of its own.
pub(crate) fn gather<R: Threads + Sync>(
    rt: &R,
    alloc: Global,
    messages: &[Arc<Message>],
) -> Result<IndexedMessages, AllocError>
    ensures archive { IfOk result (λ gathered. gathered.archive ≡ contents_of (messages_in messages.now)) }
    ensures index { IfOk result (λ gathered. IsFiledBy gathered.index (messages_in messages.now)) }
{
    let (held, filed) = join(
        rt,
        || -> Result<Archive, AllocError>
            ensures { IfOk result (λ archive. archive ≡ contents_of (messages_in messages.entry.now)) }
        { archive_of(alloc, messages) },
        || -> Result<ByTransfer, AllocError>
            ensures { IfOk result (λ index. IsFiledBy index (messages_in messages.entry.now)) }
        { by_transfer(alloc, messages) },
    );
    let archive = held?;
    let index = filed?;
    Ok(IndexedMessages { archive, index })
}

// The case of each transfer of an archive, in the order of the index, which has the archive's messages by transfer.
fn evaluate_all<R: Threads + Sync>(
    rt: &R,
    alloc: Global,
    archive: &Archive,
    index: &ByTransfer,
) -> Result<Vec<Planned>, AllocError>
    requires filed { IsFiled archive.now index.now }
    ensures { IfOk result (λ planned. map change_in planned.items ≡ changes_of archive.now (keys index.now)) }
{
    let transfers = index.keys().as_slice();
    let halvings = halvings(rt, transfers.len());
    planned_by_halves(rt, alloc, archive, index, transfers, halvings)
}

/// The tables of an archive, built in one thread.
pub(crate) fn tables_of(alloc: Global, archive: &Archive) -> Result<Tables, AllocError>
    ensures { IfOk result (λ tables. AreCasesOf archive.now tables.cases) }
{
    let index = by_transfer(alloc, archive.messages())?;
    let planned = planned_in_turn(alloc, archive, &index, index.keys().as_slice())?;
    Tables::of(alloc, planned)
}

// The tables of an archive. `index` has the archive's messages by transfer, and is dropped while the tables are filled.
fn tables_in_parts<R: Threads + Sync>(
    rt: &R,
    alloc: Global,
    archive: &Archive,
    index: ByTransfer,
) -> Result<Tables, AllocError>
    requires filed { IsFiled archive.now index }
    ensures { IfOk result (λ tables. AreCasesOf archive.now tables.cases) }
{
    let planned = evaluate_all(rt, alloc, archive, &index)?;
    let ((), tables) = join(
        rt,
        move || -> () { drop(index) },
        move || -> Result<Tables, AllocError>
            ensures { IfOk result (λ tables. (t : TransferOf) → case_at tables.cases t
                ≡ case_after (map change_in planned.items) (λ t. no_messages) t) }
        { Tables::of(alloc, planned) },
    );
    tables
}

/// An archive of messages with its tables: the case of each transfer and the totals of each bank.
#[derive(Drop)]
pub(crate) struct BuiltView {
    pub(crate) archive: Archive,
    pub(crate) tables: Tables,
}

/// The archive of the messages with its tables. The messages may be in any order and may repeat.
/// It works in as many threads as there are processors. If a thread cannot be started, another thread does its work.
pub(crate) fn filled_in_parts<R: Threads + Sync>(
    rt: &R,
    alloc: Global,
    messages: &[Arc<Message>],
) -> Result<BuiltView, AllocError>
    ensures held { IfOk result (λ filled. filled.archive ≡ contents_of (messages_in messages.now)) }
    ensures kept { IfOk result (λ filled. AreCasesOf filled.archive filled.tables.cases) }
{
    let IndexedMessages { archive, index } = gather(rt, alloc, messages)?;
    let tables = tables_in_parts(rt, alloc, &archive, index)?;
    Ok(BuiltView { archive, tables })
}
