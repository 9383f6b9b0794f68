//! The texts about the messages read, most of them in pieces: the status text, the archive text, the totals text, the report on a
//! list, and the archive text of what is kept or of what is closed.
ghost use Rattle.std.specs.Prelude.{◌≡◌, IfErr, IfOk};
ghost use Rattle.sct_message.specs.Sets.{messages_in};
ghost use Rattle.sct_reconcile.specs.Reports.{report_of, report_text_of};
ghost use Rattle.sct_keep.specs.Keep.{closed_of, kept_of};
ghost use Rattle.sct_set.specs.Archive.{archive_text_of};
ghost use Rattle.sct_set.specs.Contents.{contents_of};
ghost use Rattle.sct_set.specs.Pieces.{joined};
ghost use Rattle.sct_commands.specs.Again.{ArchiveGivesBack, GivesBack};
ghost use Rattle.sct_commands.specs.declared.fault.ProgramFault.TheVariants as fault;
ghost use Rattle.sct_view.specs.StatusText.{status_text_of};
ghost use Rattle.sct_view.specs.TotalsText.{totals_text_of};

use crate::fault::ProgramFault;
use crate::jobs::Release;
use sct_element::{Bic, Day};
use sct_keep::{KeptAndClosed, split};
use sct_message::Message;
use sct_reconcile::{List, reconcile};
use sct_set::SortedArchive;
use sct_view::{FiledArchive, View};
use std::alloc::{AllocError, Global};
use std::sync::Arc;
use std::thread::Threads;

// A law: the archive text is an input that gives the archive back. None of its lines is refused,
// and the set read from it is the archive.
fn the_archive_text_gives_the_set_back()
    ensures { ArchiveGivesBack }
{}

/// The archive text in pieces: each message once, written on a line of its own, sorted by identity and then by text.
/// The pieces are written in as many threads as there are processors. Error: out of memory.
pub fn archive_pieces<T: Threads + Sync>(
    rt: &T,
    alloc: Global,
    release: Release,
    messages: Vec<Arc<Message>>,
) -> Result<Vec<Vec<u8>>, AllocError>
    ensures text { IfOk result (λ pieces. joined pieces.items
        ≡ archive_text_of (contents_of (messages_in messages.items))) }
    ensures again { IfOk result (λ pieces.
        GivesBack (contents_of (messages_in messages.items)) (joined pieces.items)) }
{
    // for the clause `again`
    the_archive_text_gives_the_set_back();
    let ordered = SortedArchive::of(rt, alloc, &messages)?;
    let pieces = ordered.text_in_pieces(rt)?;
    release.let_go(messages);
    release.let_go(ordered);
    Ok(pieces)
}

// The view of the messages, built in as many threads as there are processors.
fn view_of<T: Threads + Sync>(
    rt: &T,
    alloc: Global,
    release: Release,
    messages: Vec<Arc<Message>>,
) -> Result<View, AllocError>
    ensures { IfOk result (λ view. view ≡ contents_of (messages_in messages.items)) }
{
    let view = View::of_messages(rt, alloc, &messages)?;
    release.let_go(messages);
    Ok(view)
}

/// The status text of the set of the messages, in pieces. The messages may be in any order
/// and may repeat. Error: out of memory.
pub fn status_pieces<T: Threads + Sync>(
    rt: &T,
    alloc: Global,
    release: Release,
    messages: Vec<Arc<Message>>,
) -> Result<Vec<Vec<u8>>, AllocError>
    ensures { IfOk result (λ pieces. joined pieces.items
        ≡ status_text_of (contents_of (messages_in messages.items))) }
{
    let filed = FiledArchive::of(rt, alloc, &messages)?;
    release.let_go(messages);
    let pieces = filed.status_text_in_pieces(rt);
    release.let_go(filed);
    Ok(pieces?)
}

/// The totals text of the set of the messages, which may be in any order and may repeat. Error: out of memory.
pub fn totals_text<T: Threads + Sync>(
    rt: &T,
    alloc: Global,
    release: Release,
    messages: Vec<Arc<Message>>,
) -> Result<Vec<u8>, AllocError>
    ensures { IfOk result (λ text. text.items
        ≡ totals_text_of (contents_of (messages_in messages.items))) }
{
    let filed = FiledArchive::of(rt, alloc, &messages)?;
    release.let_go(messages);
    let text = filed.totals_text(rt);
    release.let_go(filed);
    Ok(text?)
}

/// The report on a bank's list for a settlement day, over the set of the messages. Error: `Memory` (65).
pub fn report_text<T: Threads + Sync>(
    rt: &T,
    alloc: Global,
    release: Release,
    messages: Vec<Arc<Message>>,
    bank: &Bic,
    day: &Day,
    list: &List,
) -> Result<Vec<u8>, ProgramFault>
    ensures text { IfOk result (λ text. text.items
        ≡ report_text_of (report_of (contents_of (messages_in messages.items)) bank.now day.now list.now)) }
    ensures memory { IfErr result (λ e. e ≡ fault.Memory) }
{
    let view = view_of(rt, alloc, release, messages)?;
    let report = reconcile(rt, alloc, &view, bank, day, list);
    release.let_go(view);
    Ok(report?.write()?)
}

// The messages split by a day. The view that this needs is let go.
fn split_messages<T: Threads + Sync>(
    rt: &T,
    alloc: Global,
    release: Release,
    messages: Vec<Arc<Message>>,
    day: &Day,
) -> Result<KeptAndClosed, AllocError>
    ensures kept { IfOk result (λ parts. contents_of (messages_in parts.kept.items)
        ≡ kept_of day.now (contents_of (messages_in messages.items))) }
    ensures closed { IfOk result (λ parts. contents_of (messages_in parts.closed.items)
        ≡ closed_of (contents_of (messages_in messages.items)) (kept_of day.now (contents_of (messages_in messages.items)))) }
{
    let view = View::of_messages(rt, alloc, &messages)?;
    let parts = split(alloc, &view, day, &messages);
    release.let_go(view);
    release.let_go(messages);
    Ok(parts?)
}

/// The archive text of what is kept of the messages on a day, in pieces. Error: out of memory.
pub fn kept_pieces<T: Threads + Sync>(
    rt: &T,
    alloc: Global,
    release: Release,
    messages: Vec<Arc<Message>>,
    day: &Day,
) -> Result<Vec<Vec<u8>>, AllocError>
    ensures { IfOk result (λ pieces. joined pieces.items
        ≡ archive_text_of (kept_of day.now (contents_of (messages_in messages.items)))) }
{
    let KeptAndClosed { kept, closed } = split_messages(rt, alloc, release, messages, day)?;
    release.let_go(closed);
    archive_pieces(rt, alloc, release, kept)
}

/// The archive text of what is closed of the messages on a day, in pieces. Error: out of memory.
pub fn closed_pieces<T: Threads + Sync>(
    rt: &T,
    alloc: Global,
    release: Release,
    messages: Vec<Arc<Message>>,
    day: &Day,
) -> Result<Vec<Vec<u8>>, AllocError>
    ensures { IfOk result (λ pieces. joined pieces.items
        ≡ archive_text_of (closed_of (contents_of (messages_in messages.items)) (kept_of day.now (contents_of (messages_in messages.items))))) }
{
    let KeptAndClosed { kept, closed } = split_messages(rt, alloc, release, messages, day)?;
    release.let_go(kept);
    archive_pieces(rt, alloc, release, closed)
}
