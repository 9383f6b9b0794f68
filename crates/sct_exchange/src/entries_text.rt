//! The delta text of entries of one origin, of a limited size.

ghost use Rattle.std.specs.Prelude.{◌≡◌, ◌≤◌, ◌+◌, ◌++◌, ◌∷◌, [], codes, decimal, drop, flat_map, length, take, nat_le, string_bytes, OnOk, IfOk, IfErr};
ghost use Rattle.sct_message.specs.Sets.{messages_in};
ghost use Rattle.sct_set.specs.Archive.{line_of};
ghost use Rattle.sct_delta.specs.DeltaText.{written_delta};
ghost use Rattle.sct_delta.specs.Entries.{numbered};
ghost use Rattle.sct_delta.specs.TextLines.{end_line, ended};
ghost use Rattle.sct_delta.specs.declared.fault.DeltaFault.TheVariants as fault;
ghost use Rattle.sct_exchange.specs.Entries.{entries_text, entries_within, head_text};

use sct_delta::DeltaFault;
use sct_json::write_message;
use sct_message::Message;
use sct_site::SiteCore;
use std::alloc::{AllocError, Global};
use std::sync::Arc;

// Appends the line of a message.
fn push_line(alloc: Global, lines: &mut Vec<u8>, message: &Message) -> Result<(), DeltaFault>
    ensures written { OnOk result (lines.new.items ≡ lines.old.items ++ line_of message.now) }
    ensures memory { IfErr result (λ refusal. refusal ≡ fault.Memory) }
{
    let text = match write_message(alloc, message) {
        Ok(text) => text,
        Err(_) => return Err(DeltaFault::Memory),
    };
    lines.extend_from_slice(&text)?;
    lines.push(b'\n')?;
    Ok(())
}

// The lines before those of `count` messages.
fn head_of(alloc: Global, origin: u16, first: u64, count: u64) -> Result<String, AllocError>
    ensures { IfOk result (λ head. string_bytes head ≡ head_text origin first count) }
{
    format!(in alloc; "delta 2\norigin {origin} {first} {count}\n")
}

// The end line after `count` messages.
fn end_of(alloc: Global, count: u64) -> Result<String, AllocError>
    ensures { IfOk result (λ end. string_bytes end ≡ ended (end_line count)) }
{
    format!(in alloc; "end {count}\n")
}

// Whether the text of `count` messages with so many bytes of lines has at most `most` bytes.
fn has_room(
    alloc: Global,
    origin: u16,
    first: u64,
    count: u64,
    size: usize,
    most: u64,
) -> Result<bool, AllocError>
    ensures { IfOk result (λ fits. fits
        ≡ nat_le (length (head_text origin first count) + (size + length (ended (end_line count)))) most) }
{
    let head = head_of(alloc, origin, first, count)?;
    let end = end_of(alloc, count)?;
    let size = head.len() as u128 + (size as u128 + end.len() as u128);
    Ok(size <= most as u128)
}

// The lines of the first messages, as many as the text has room for, and how many they are.
fn lines_within(
    alloc: Global,
    origin: u16,
    first: u64,
    messages: &[Arc<Message>],
    most: u64,
) -> Result<(Vec<u8>, u64), DeltaFault>
    requires { 1 ≤ origin }
    ensures lines { IfOk result (λ found. found.0.items ≡ flat_map line_of (take found.1 (messages_in messages.now))) }
    ensures few { IfOk result (λ found. found.1 ≤ length messages.now) }
    ensures within { IfOk result (λ found. entries_within most (numbered origin first (messages_in messages.now))
        ≡ numbered origin first (take found.1 (messages_in messages.now))) }
    ensures memory { IfErr result (λ refusal. refusal ≡ fault.Memory) }
{
    let mut lines = Vec::new(alloc);
    let mut count = 0;
    for message in messages {
        let before = lines.len();
        push_line(alloc, &mut lines, message)?;
        if count > 0 && !has_room(alloc, origin, first, count + 1, lines.len(), most)? {
            lines.truncate(before);
            return Ok((lines, count));
        }
        count += 1;
    }
    Ok((lines, count))
}

// The delta text, of form 2, of messages as the entries of an origin, numbered from `first` on: as many of them as a text of
// `most` bytes has room for, but at least one.
fn write_run(
    alloc: Global,
    origin: u16,
    first: u64,
    messages: &[Arc<Message>],
    most: u64,
) -> Result<Vec<u8>, DeltaFault>
    requires { 1 ≤ origin }
    ensures text { IfOk result (λ text. text.items
        ≡ written_delta (entries_within most (numbered origin first (messages_in messages.now)))) }
    ensures memory { IfErr result (λ refusal. refusal ≡ fault.Memory) }
{
    let (lines, count) = lines_within(alloc, origin, first, messages, most)?;
    let end = end_of(alloc, count)?;
    let mut text = Vec::new(alloc);
    if count == 0 {
        text.extend_from_slice(b"delta 2\n")?;
        text.extend_from_slice(end.as_bytes())?;
        return Ok(text);
    }
    let head = head_of(alloc, origin, first, count)?;
    text.extend_from_slice(head.as_bytes())?;
    text.extend_from_slice(&lines)?;
    text.extend_from_slice(end.as_bytes())?;
    Ok(text)
}

// The same of a log: the entries of its origin that are numbered above a count. There may be none.
fn write_above(
    alloc: Global,
    origin: u16,
    above: u64,
    log: &[Arc<Message>],
    most: u64,
) -> Result<Vec<u8>, DeltaFault>
    requires { 1 ≤ origin }
    ensures text { IfOk result (λ text. text.items
        ≡ written_delta (entries_within most (numbered origin (above + 1) (drop above (messages_in log.now))))) }
    ensures memory { IfErr result (λ refusal. refusal ≡ fault.Memory) }
{
    let held = log.len() as u64;
    if above >= held {
        return write_run(alloc, origin, 1, &log[log.len()..], most);
    }
    let (_, rest) = log.split_at(above as usize);
    write_run(alloc, origin, above + 1, rest, most)
}

/// The delta text, of form 2, of the entries of an origin that the site holds and that are numbered above a count, in the order
/// of their numbers: as many as a text of `most` bytes has room for, but at least the first. There may be none.
/// Error: `Memory` (40). The cost is that of the entries that it writes, and of one more.
pub fn write_entries(
    alloc: Global,
    core: &SiteCore,
    origin: u16,
    above: u64,
    most: u64,
) -> Result<Vec<u8>, DeltaFault>
    requires { 1 ≤ origin }
    ensures text { IfOk result (λ text. text.items ≡ entries_text origin above most core.now.arrivals) }
    ensures memory { IfErr result (λ refusal. refusal ≡ fault.Memory) }
{
    write_above(alloc, origin, above, core.log(origin), most)
}
