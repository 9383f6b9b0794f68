//! Reads a delta text as its delta, or finds its first wrong line.
ghost use Rattle.std.specs.Prelude.{◌≡◌, ◌≢◌, ◌+◌, ◌<◌, ◌^◌, List, Ok, Err, IfOk, IfErr, length, nat_eq};
ghost use Rattle.std.specs.Cmp.Lexicographic.{pointwise};
ghost use Rattle.sct_delta.specs.declared.fault.DeltaFault.TheVariants as fault;
ghost use Rattle.sct_delta.specs.Entries.{Placed};
ghost use Rattle.sct_delta.specs.DeltaText.{IsDeltaText, Reads, delta_in, entries_behind};
ghost use Rattle.sct_delta.specs.EntryText.{entries_head};
ghost use Rattle.sct_delta.specs.GroupText.{groups_head};
ghost use Rattle.sct_delta.specs.TextLines.{lines_by_end};

use crate::delta::Delta;
use crate::entry::Entry;
use crate::fault::DeltaFault;
use crate::text::entries::read_entries;
use crate::text::fields::first_ended_line;
use crate::text::groups::read_groups;
use std::alloc::Global;

// Whether the line is the head line of form 1.
fn heads_entries(line: &[u8]) -> bool
    ensures { result ≡ pointwise nat_eq line.now entries_head }
{
    line == b"delta 1".as_slice()
}

// Whether the line is the head line of form 2.
fn heads_groups(line: &[u8]) -> bool
    ensures { result ≡ pointwise nat_eq line.now groups_head }
{
    line == b"delta 2".as_slice()
}

// Reads the lines after a head line, by the form that it names.
fn read_behind(alloc: Global, head: &[u8], text: &[u8]) -> Result<Vec<Entry>, DeltaFault>
    requires { length text.now + 4 < 2 ^ 64 }
    ensures read { IfOk result (λ entries. entries_behind head.now (lines_by_end text.now) ≡ Ok entries.items) }
    ensures wrong { IfErr result (λ refusal. Reads (Err refusal) (entries_behind head.now (lines_by_end text.now))) }
{
    if heads_entries(head) {
        return read_entries(alloc, text);
    }
    if heads_groups(head) {
        return read_groups(alloc, text);
    }
    Err(DeltaFault::BadDelta(1))
}

/// Reads a text of form 1 or form 2 as its delta. Each message is put into an `Arc` once. O(bytes of the text).
/// Error: `BadDelta` (45) with the number, from 1, of the first wrong line. A line is wrong in these cases:
/// - it does not have its shape, it is missing, or no line feed ends it;
/// - its origin is outside 1 to 64 in form 1, or outside 1 to 1024 in form 2;
/// - its entry may not follow the entry before it, or its origin is not above the origin before it;
/// - its numbers begin at 0 or go past 18446744073709551615, or its count of messages is 0;
/// - its message is refused, or it is not a message line and a message is due;
/// - it gives another number of entries than the text has, or it comes after the end line.
///
/// Further error: `Memory` (40), which says nothing about the text.
pub fn read_delta(alloc: Global, bytes: &[u8]) -> Result<Delta, DeltaFault>
    ensures read { Reads result (delta_in bytes.now) }
    ensures form { IfOk result (λ delta. IsDeltaText bytes.now delta) }
    ensures refused { IfErr result (λ refusal. refusal ≢ fault.Memory
        → (entries : List Placed) → ¬ (IsDeltaText bytes.now entries)) }
{
    let Some((line, rest)) = first_ended_line(bytes) else {
        return Err(DeltaFault::BadDelta(1));
    };
    match read_behind(alloc, line, rest) {
        Ok(entries) => Ok(Delta::of_shape(entries)),
        Err(refusal) => Err(refusal),
    }
}
