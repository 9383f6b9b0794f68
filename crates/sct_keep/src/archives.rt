//! An archive split into two.

ghost use Rattle.std.specs.Prelude.{◌≡◌, IfOk};
ghost use Rattle.sct_message.specs.Sets.{messages_in};
ghost use Rattle.sct_set.specs.Contents.{contents_of};
ghost use Rattle.sct_keep.specs.Keep.{closed_of, kept_of};

use crate::splitting::split;
use sct_case::CaseFault;
use sct_element::Day;
use sct_message::Message;
use sct_set::Archive;
use sct_view::View;
use std::alloc::{AllocError, Global};
use std::sync::Arc;

/// The archive of what is kept, and that of what is closed.
#[derive(Drop)]
pub struct Archives {
    /// What stays.
    pub kept: Archive,
    /// The rest.
    pub closed: Archive,
}

// An archive of the messages.
fn archive_of(alloc: Global, messages: &[Arc<Message>]) -> Result<Archive, AllocError>
    ensures { IfOk result (λ archive. archive ≡ contents_of (messages_in messages.now)) }
{
    let mut archive = Archive::new(alloc);
    archive.add_all(messages)?;
    Ok(archive)
}

/// Splits an archive by a day, `YYYY-MM-DD`, into what is kept and what is closed. The archive stays as it is.
/// Error: `Memory` (39). It builds a view of the archive in one thread, and costs what that and [`split`](crate::split) cost.
pub fn split_archive(alloc: Global, archive: &Archive, day: &Day) -> Result<Archives, CaseFault>
    ensures kept { IfOk result (λ archives. archives.kept ≡ kept_of day.now archive.now) }
    ensures closed { IfOk result (λ archives. archives.closed ≡ closed_of archive.now (kept_of day.now archive.now)) }
{
    let messages = archive.messages();
    let view = View::of(alloc, archive_of(alloc, messages)?)?;
    let parts = split(alloc, &view, day, messages)?;
    Ok(Archives {
        kept: archive_of(alloc, &parts.kept)?,
        closed: archive_of(alloc, &parts.closed)?,
    })
}
