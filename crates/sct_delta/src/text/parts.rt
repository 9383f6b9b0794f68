//! The parts that both forms of the delta text have: messages and the end line.
ghost use Rattle.std.specs.Prelude.{◌≡◌, ◌-◌, ◌<◌, ◌^◌, Ok, Err, IfOk, IfErr, codes, option_and_then};
ghost use Rattle.std.specs.Result.{result_ok};
ghost use Rattle.sct_json.specs.Reading.{message_in};
ghost use Rattle.sct_delta.specs.DeltaText.{Reads};
ghost use Rattle.sct_delta.specs.TextLines.{after_prefix, entries_ended, is_end_line, lines_by_end, number_in};

use crate::entry::Entry;
use crate::fault::DeltaFault;
use crate::text::fields::number_of;
use sct_json::{JsonFault, read_message};
use sct_message::Message;
use std::alloc::{AllocError, Global};

/// The message of a JSON text, or none if the text is refused. The error is that it is out of memory.
pub fn message_of(alloc: Global, json: &[u8]) -> Result<Option<Message>, AllocError>
    ensures { IfOk result (λ message. message ≡ result_ok (message_in json.now)) }
{
    match read_message(alloc, json) {
        Ok(message) => Ok(Some(message)),
        Err(JsonFault::Memory) => Err(AllocError),
        Err(_) => Ok(None),
    }
}

// The number in an end line.
fn told_count(line: &[u8]) -> Option<u64>
    ensures { result ≡ option_and_then number_in (after_prefix (codes "end ") line.now) }
{
    let number = line.strip_prefix(b"end ")?;
    number_of(number)
}

// Whether the line is the end line after `count` entries.
#[tactic(auto, using(crate::proofs::ReadingLemmas::end_by_count, crate::proofs::ReadingLemmas::no_count_no_end))]
fn is_end_line(line: &[u8], count: u64) -> bool
    ensures { result ≡ is_end_line count line.now }
{
    match told_count(line) {
        Some(number) => number == count,
        None => false,
    }
}

/// Ends the reading at a line that is neither an entry line nor an origin line. `after` is the text after that line.
/// Error: `BadDelta` (45) if the line is not the end line, or if there is text after it.
pub fn ended(
    entries: Vec<Entry>,
    place: u64,
    line: &[u8],
    after: &[u8],
) -> Result<Vec<Entry>, DeltaFault>
    requires { place < 2 ^ 64 - 1 }
    ensures read { IfOk result (λ read. entries_ended place entries.items line.now (lines_by_end after.now)
        ≡ Ok read.items) }
    ensures wrong { IfErr result (λ refusal.
        Reads (Err refusal) (entries_ended place entries.items line.now (lines_by_end after.now))) }
{
    if !is_end_line(line, entries.len() as u64) {
        return Err(DeltaFault::BadDelta(place));
    }
    if !after.is_empty() {
        return Err(DeltaFault::BadDelta(place + 1));
    }
    Ok(entries)
}
