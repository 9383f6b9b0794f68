//! Form 1 of the delta text: reads entry lines as entries.
ghost use Rattle.std.specs.Prelude.{◌≡◌, ◌+◌, ◌<◌, ◌^◌, [], Ok, Err, IfOk, IfErr, length};
ghost use Rattle.sct_delta.specs.DeltaText.{Reads};
ghost use Rattle.sct_delta.specs.EntryText.{entries_after_head, entry_in};
ghost use Rattle.sct_delta.specs.TextLines.{lines_by_end};

use crate::delta::may_be_next;
use crate::entry::Entry;
use crate::fault::DeltaFault;
use crate::text::fields::{fields_of, first_ended_line};
use crate::text::parts::{ended, message_of};
use std::alloc::{AllocError, Global};
use std::sync::Arc;

// The entry of a line, or none if it is not an entry line.
#[tactic(auto, unfolding(crate::specs::EntryText::entry_in))]
fn read_entry(alloc: Global, line: &[u8]) -> Result<Option<Entry>, AllocError>
    ensures { IfOk result (λ entry. entry ≡ entry_in line.now) }
{
    let Some((origin, n, json)) = fields_of(line) else {
        return Ok(None);
    };
    let Some(message) = message_of(alloc, json)? else {
        return Ok(None);
    };
    let message = Arc::new(alloc, message)?;
    Ok(Some(Entry { origin, n, message }))
}

/// Reads the lines after the head line of form 1: entry lines and the end line.
/// Errors: `BadDelta` (45) with the first wrong line, counted in the whole text; `Memory`
/// (40), which says nothing about the text.
#[tactic(auto, using(crate::proofs::ReadingLemmas::read_missing))]
pub fn read_entries(alloc: Global, text: &[u8]) -> Result<Vec<Entry>, DeltaFault>
    requires { length text.now + 4 < 2 ^ 64 }
    ensures read { IfOk result (λ entries. entries_after_head (lines_by_end text.now) ≡ Ok entries.items) }
    ensures wrong { IfErr result (λ refusal. Reads (Err refusal) (entries_after_head (lines_by_end text.now))) }
{
    let mut entries = Vec::new(alloc);
    let mut rest = text;
    let mut place = 2;
    let mut origin = 0;
    let mut n = 0;
    while let Some((line, after)) = first_ended_line(rest) {
        let Some(entry) = read_entry(alloc, line)? else {
            return ended(entries, place, line, after);
        };
        if !may_be_next(origin, n, &entry) {
            return Err(DeltaFault::BadDelta(place));
        }
        place += 1;
        origin = entry.origin;
        n = entry.n;
        entries.push(entry)?;
        rest = after;
    }
    let missing = DeltaFault::BadDelta(place);
    Err(missing)
}
