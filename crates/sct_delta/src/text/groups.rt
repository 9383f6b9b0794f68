//! Form 2 of the delta text: reads origin lines and message lines as entries.
ghost use Rattle.std.specs.Prelude.{◌≡◌, ◌+◌, ◌<◌, ◌^◌, [], Some, None, Ok, Err, IfOk, IfErr, length, if◌then◌else◌};
ghost use Rattle.sct_delta.specs.DeltaText.{Reads};
ghost use Rattle.sct_delta.specs.GroupText.{groups_after_head, may_begin, origin_in};
ghost use Rattle.sct_delta.specs.TextLines.{lines_by_end};

use crate::entry::Entry;
use crate::fault::DeltaFault;
use crate::sites::is_site;
use crate::text::fields::{after_prefix, first_ended_line, number_before_space, number_of};
use crate::text::parts::{ended, message_of};
use std::alloc::Global;
use std::sync::Arc;

// The origin, the first number and the count of an origin line, or none if the line does not have this shape.
#[tactic(auto, unfolding(crate::specs::GroupText::origin_in))]
fn origin_of(line: &[u8]) -> Option<(u64, u64, u64)>
    ensures { result ≡ origin_in line.now }
{
    let rest = after_prefix(line, b"origin ")?;
    let (origin, rest) = number_before_space(rest)?;
    let (first, rest) = number_before_space(rest)?;
    let count = number_of(rest)?;
    Some((origin, first, count))
}

// The site of an origin line, or none if the line may not come here. `before` is the
// origin of the group before it, or 0.
fn site_of_group(before: u16, origin: u64, first: u64, count: u64) -> Option<u16>
    ensures { result ≡ (if may_begin before origin first count then Some origin else None) }
{
    match u16::try_from(origin) {
        Ok(site)
            if before < site
                && is_site(site)
                && 1 <= first
                && 1 <= count
                && first - 1 <= u64::MAX - count => { Some(site) }
        _ => None,
    }
}

/// Reads the lines after the head line of form 2: the messages of each origin, and the end line.
/// Errors: `BadDelta` (45) with the first wrong line, counted in the whole text; `Memory`
/// (40), which says nothing about the text.
#[tactic(auto, using(crate::proofs::GroupReadingLemmas::groups_missing))]
pub fn read_groups(alloc: Global, text: &[u8]) -> Result<Vec<Entry>, DeltaFault>
    requires { length text.now + 4 < 2 ^ 64 }
    ensures read { IfOk result (λ entries. groups_after_head (lines_by_end text.now) ≡ Ok entries.items) }
    ensures wrong { IfErr result (λ refusal. Reads (Err refusal) (groups_after_head (lines_by_end text.now))) }
{
    let mut entries = Vec::new(alloc);
    let mut rest = text;
    let mut place = 2;
    let mut origin = 0;
    let mut before = 0;
    let mut due = 0;
    while let Some((line, after)) = first_ended_line(rest) {
        if due == 0 {
            let Some((number, first, count)) = origin_of(line) else {
                return ended(entries, place, line, after);
            };
            let Some(site) = site_of_group(origin, number, first, count) else {
                return Err(DeltaFault::BadDelta(place));
            };
            origin = site;
            before = first - 1;
            due = count;
        } else {
            let Some(message) = message_of(alloc, line)? else {
                return Err(DeltaFault::BadDelta(place));
            };
            before += 1;
            due -= 1;
            let message = Arc::new(alloc, message)?;
            entries.push(Entry {
                origin,
                n: before,
                message,
            })?;
        }
        place += 1;
        rest = after;
    }
    let missing = DeltaFault::BadDelta(place);
    Err(missing)
}
