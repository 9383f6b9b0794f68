//! An input read in blocks of lines.
ghost use Rattle.std.specs.Prelude.{◌≡◌, ◌+◌, ◌<◌, ◌≤◌, ◌++◌, ◌^◌, drop, length, vec_len, IfErr, IfOk, OnOk};
ghost use Rattle.sct_input.specs.Inputs.{IsIntake};
ghost use Rattle.sct_lines.specs.LineLaws.{IsOfWholeLines};
ghost use Rattle.sct_lines.specs.Lines.{lines_of};
ghost use Rattle.sct_streams.specs.Whole.{failed_reads, EndsReading};

use sct_lines::{Intake, LinesRead, whole_lines};
use sct_streams::{ReadFault, Source, read_more};
use std::alloc::{AllocError, Global};
use std::thread::Threads;

// A block has this many bytes, or more if a line is longer.
const BLOCK: usize = 16_777_216;

// How many bytes are read next: a block, or more behind the front of a long line. `room` is how many bytes the input may
// still have. At most one more than that is read.
fn next_read(room: usize, kept: usize) -> usize
    ensures some { 0 < result }
    ensures most { result ≤ room + 1 }
{
    let block = BLOCK.max(kept);
    if room < block { room + 1 } else { block }
}

// Removes some bytes at the front.
fn remove_front(bytes: &mut Vec<u8>, count: usize)
    requires { count ≤ vec_len bytes.old }
    ensures { bytes.new.items ≡ drop count bytes.old.items }
{
    let len = bytes.len();
    bytes.copy_within(count..len, 0);
    bytes.truncate(len - count);
}

// Reads the lines of a text that are ended, behind those before, and removes them from it. No byte is lost.
fn take_lines<T: Threads + Sync>(
    rt: &T,
    alloc: Global,
    lines: LinesRead,
    text: &mut Vec<u8>,
) -> Result<LinesRead, AllocError>
    requires few { length (lines_of lines) + vec_len text.old < 2 ^ 64 }
    ensures whole { IfOk result IsOfWholeLines }
    ensures bytes { IfOk result (λ read. IsOfWholeLines lines → read ++ text.new.items ≡ lines ++ text.old.items) }
{
    let count = whole_lines(text);
    let (ended, _) = text.split_at(count);
    let read = lines.with_block(rt, alloc, ended)?;
    remove_front(text, count);
    Ok(read)
}

/// Reads the messages and the refused lines of all that a source has left. `limit` is the greatest number of bytes. O(input).
/// Errors: `TooLong` if there are more bytes, after one byte past the limit was read; `Failed` if a read fails; `Memory`.
/// What was read so far is then lost.
pub fn read_messages<T: Threads + Sync, R: Source>(
    rt: &T,
    alloc: Global,
    source: &mut R,
    limit: u64,
) -> Result<Intake, ReadFault>
    ensures read { IfOk result (IsIntake limit (R.state source.old).left (R.state source.new).left) }
    ensures faults { IfErr result (λ e. EndsReading e limit (R.state source.old).left (R.state source.new).left) }
    ensures quiet { OnOk result ((R.state source.new).failures ≡ (R.state source.old).failures) }
    ensures counted { IfErr result (λ e. (R.state source.new).failures ≡ (R.state source.old).failures + failed_reads e) }
{
    let mut lines = LinesRead::none(alloc);
    let mut text = Vec::new(alloc);
    let mut room = limit as usize;
    loop {
        let most = next_read(room, text.len());
        let count = read_more(source, &mut text, most)?;
        if count < most {
            return Ok(lines.with_block(rt, alloc, &text)?.into_intake());
        }
        if count > room {
            return Err(ReadFault::TooLong);
        }
        room -= count;
        lines = take_lines(rt, alloc, lines, &mut text)?;
    }
}
