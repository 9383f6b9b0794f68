//! Writes a delta as its text of form 2.
ghost use Rattle.std.specs.Prelude.{◌≡◌, ◌<◌, ◌≤◌, ◌^◌, ◌+◌, ◌++◌, ◌∷◌, [], Ok, OnOk, IfOk, IfErr, codes, decimal, flat_map, length, nat_eq, string_bytes};
ghost use Rattle.std.specs.List.{All};
ghost use Rattle.sct_json.specs.Reading.{message_in};
ghost use Rattle.sct_json.specs.Writing.{written_text};
ghost use Rattle.sct_delta.specs.declared.fault.DeltaFault.TheVariants as fault;
ghost use Rattle.sct_delta.specs.DeltaText.{IsDeltaText, delta_in, written_delta};
ghost use Rattle.sct_delta.specs.GroupText.{IsWritable, line_before, lines_after, origin_line, run_length};
ghost use Rattle.sct_delta.specs.TextLines.{end_line, ended};

use crate::delta::Delta;
use crate::entry::Entry;
use crate::fault::DeltaFault;
use sct_json::write_message;
use sct_message::Message;
use std::alloc::{AllocError, Global};

// The written form of a message.
fn text_of(alloc: Global, message: &Message) -> Result<Vec<u8>, DeltaFault>
    ensures written { IfOk result (λ text. text.items ≡ written_text message.now) }
    ensures reads_back { OnOk result (message_in (written_text message.now) ≡ Ok message.now) }
    ensures memory { IfErr result (λ refusal. refusal ≡ fault.Memory) }
{
    match write_message(alloc, message) {
        Ok(text) => Ok(text),
        Err(_) => Err(DeltaFault::Memory),
    }
}

// How many entries of the origin the list begins with.
fn run_length(origin: u16, entries: &[Entry]) -> u64
    ensures run { result ≡ run_length origin entries.now }
    ensures few { result ≤ length entries.now }
{
    let mut rest = entries;
    let mut count = 0;
    while let Some((entry, after)) = rest.split_first() {
        if entry.origin != origin {
            return count;
        }
        count += 1;
        rest = after;
    }
    count
}

// The line that begins an origin, with its line feed.
fn origin_line(alloc: Global, origin: u16, first: u64, count: u64) -> Result<String, AllocError>
    ensures { IfOk result (λ line. string_bytes line ≡ codes "origin "
        ++ (decimal origin ++ 32 ∷ (decimal first ++ 32 ∷ (decimal count ++ 10 ∷ [])))) }
{
    format!(in alloc; "origin {origin} {first} {count}\n")
}

// Appends the line that begins an origin, if the entry before is of another origin.
fn begin_origin(
    alloc: Global,
    text: &mut Vec<u8>,
    previous: u16,
    entry: &Entry,
    after: &[Entry],
) -> Result<(), DeltaFault>
    ensures written { OnOk result (text.new.items
        ≡ text.old.items ++ flat_map ended (line_before previous entry.now after.now)) }
    ensures memory { IfErr result (λ refusal. refusal ≡ fault.Memory) }
{
    if entry.origin == previous {
        return Ok(());
    }
    let count = 1 + run_length(entry.origin, after);
    let line = origin_line(alloc, entry.origin, entry.n, count)?;
    text.extend_from_slice(line.as_bytes())?;
    Ok(())
}

// Appends the line of a message.
fn push_message(alloc: Global, text: &mut Vec<u8>, entry: &Entry) -> Result<(), DeltaFault>
    ensures written { OnOk result (text.new.items
        ≡ text.old.items ++ ended (written_text entry.now.message)) }
    ensures reads_back { OnOk result (IsWritable entry.now) }
    ensures memory { IfErr result (λ refusal. refusal ≡ fault.Memory) }
{
    // Read only so that its range is known.
    let _number = entry.n;
    let message = text_of(alloc, &entry.message)?;
    text.extend_from_slice(&message)?;
    text.push(b'\n')?;
    Ok(())
}

// Appends the lines of the entries.
fn push_entries(alloc: Global, text: &mut Vec<u8>, entries: &[Entry]) -> Result<(), DeltaFault>
    ensures written { OnOk result (text.new.items
        ≡ text.old.items ++ flat_map ended (lines_after 0 entries.now)) }
    ensures reads_back { OnOk result (All IsWritable entries.now) }
    ensures memory { IfErr result (λ refusal. refusal ≡ fault.Memory) }
{
    let mut rest = entries;
    let mut previous = 0;
    while let Some((entry, after)) = rest.split_first() {
        begin_origin(alloc, text, previous, entry, after)?;
        push_message(alloc, text, entry)?;
        previous = entry.origin;
        rest = after;
    }
    Ok(())
}

// The end line after `count` entries, with its line feed.
fn end_of(alloc: Global, count: u64) -> Result<String, AllocError>
    ensures { IfOk result (λ line. string_bytes line ≡ ended (end_line count)) }
{
    format!(in alloc; "end {count}\n")
}

// The written text of entries.
fn text_of_entries(alloc: Global, entries: &[Entry]) -> Result<Vec<u8>, DeltaFault>
    ensures written { IfOk result (λ text. text.items ≡ written_delta entries.now) }
    ensures reads_back { OnOk result (All IsWritable entries.now) }
    ensures few { length entries.now < 2 ^ 64 }
    ensures memory { IfErr result (λ refusal. refusal ≡ fault.Memory) }
{
    let end = end_of(alloc, entries.len() as u64)?;
    let mut text = Vec::new(alloc);
    text.extend_from_slice(b"delta 2\n")?;
    push_entries(alloc, &mut text, entries)?;
    text.extend_from_slice(end.as_bytes())?;
    Ok(text)
}

/// Writes a delta as its one written text, of form 2. The text is a form of the delta and is read back as the delta.
/// It begins with the head line. For each origin it has a line with the first number and the count of its messages, and
/// then the written form of each message on a line of its own. The end line has the number of all entries.
/// Error: `Memory` (40). The cost is two passes over the entries.
pub fn write_delta(alloc: Global, delta: &Delta) -> Result<Vec<u8>, DeltaFault>
    ensures written { IfOk result (λ text. text.items ≡ written_delta delta.now) }
    ensures form { IfOk result (λ text. IsDeltaText text.items delta.now) }
    ensures reads_back { IfOk result (λ text. delta_in text.items ≡ Ok delta.now) }
    ensures memory { IfErr result (λ refusal. refusal ≡ fault.Memory) }
{
    let text = text_of_entries(alloc, delta.entries())?;
    Ok(text)
}
