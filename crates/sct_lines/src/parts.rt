//! An input read in parts, each in a thread of its own where one can be made.
ghost use Rattle.std.specs.Prelude.{◌≡◌, ◌+◌, ◌<◌, ◌≤◌, ◌++◌, ◌^◌, length, slice_index, IfOk, IfSome};
ghost use Rattle.std.specs.Thread.{IsSync};
ghost use Rattle.sct_lines.specs.LineLaws.{with_last_feed, IsOfWholeLines};
ghost use Rattle.sct_lines.specs.Lines.{lines_of, messages_read, refusals_told, told_after, told_text_of};
ghost use Rattle.sct_lines.specs.Parts.{IsPartOf};
ghost use Rattle.sct_message.specs.Sets.{messages_in};

use crate::before::LinesBefore;
use crate::intake::{Intake, LinesRead, PartRead, read_part};
use crate::lines::line_feed;
use crate::shortage::Shortage;
use std::alloc::{AllocError, Global};
use std::thread::{Threads, available_parallelism, join};

// An input of fewer bytes is read in one part.
const WORTH_A_THREAD: usize = 65_536;

// The most halvings of an input.
const MOST_HALVINGS: u32 = 16;

// The place of the first line feed that is not before `place`.
fn feed_from(text: &[u8], place: usize) -> Option<usize>
    requires { place ≤ length text.now }
    ensures from { IfSome result (λ at. place ≤ at) }
    ensures within { IfSome result (λ at. at < length text.now) }
    ensures feed { IfSome result (λ at. slice_index text.now at ≡ 10) }
{
    let (_, rest) = text.split_at(place);
    Some(place + line_feed(rest)?)
}

// Reads the part of a text that begins at `from`, without threads of its own. `counted` lines are before the text.
fn read_rest(
    alloc: Global,
    label: &str,
    counted: u64,
    text: &[u8],
    from: usize,
    shortage: &Shortage,
) -> Result<PartRead, AllocError>
    requires within { from ≤ length text.now }
    requires few { counted + length text.now < 2 ^ 64 }
    ensures { IfOk result (IsPartOf label.now counted text.now from) }
{
    let (front, part) = text.split_at(from);
    read_part(
        alloc,
        label,
        &mut LinesBefore::of(counted, front),
        part,
        shortage,
    )
}

// Reads the part of a text that begins at `from`. Its halves, and the halves of these, are read in threads of their own.
// `counted` lines are before the text. `label` is written before each line that reports a refused one. If one of the
// threads is out of memory, the others end early.
#[cycle(halves)]
fn read_by_halves<R: Threads + Sync>(
    rt: &R,
    alloc: Global,
    label: &str,
    counted: u64,
    text: &[u8],
    from: usize,
    halvings: u32,
    shortage: &Shortage,
) -> Result<PartRead, AllocError>
    requires halved { halvings ≤ 16 }
    requires within { from ≤ length text.now }
    requires few { counted + length text.now < 2 ^ 64 }
    ensures { IfOk result (IsPartOf label.now counted text.now from) }
{
    if halvings == 0 {
        return read_rest(alloc, label, counted, text, from, shortage);
    }
    let Some(at) = feed_from(text, from + (text.len() - from) / 2) else {
        return read_rest(alloc, label, counted, text, from, shortage);
    };
    let (front, _) = text.split_at(at + 1);
    let (first, second) = join(
        rt,
        || -> Result<PartRead, AllocError>
            requires { IsSync R.row × (0 < halvings) × (halvings ≤ 16) × (from ≤ length front.now) × (counted + length front.now < 2 ^ 64) }
            ensures { IfOk result (IsPartOf label.entry.now counted front.entry.now from) }
        {
            shortage.noted(read_by_halves(
                rt,
                alloc,
                label,
                counted,
                front,
                from,
                halvings - 1,
                shortage,
            ))
        },
        || -> Result<PartRead, AllocError>
            requires { IsSync R.row × (0 < halvings) × (halvings ≤ 16) × (at < length text.now) × (counted + length text.now < 2 ^ 64) }
            ensures { IfOk result (IsPartOf label.entry.now counted text.entry.now (at + 1)) }
        {
            shortage.noted(read_by_halves(
                rt,
                alloc,
                label,
                counted,
                text,
                at + 1,
                halvings - 1,
                shortage,
            ))
        },
    );
    let mut read = first?;
    read.append(second?)?;
    Ok(read)
}

// How many halvings give two parts for each processor.
fn halvings<R: Threads>(rt: &R, input: &[u8]) -> u32
    ensures { result ≤ 16 }
{
    if input.len() < WORTH_A_THREAD {
        return 0;
    }
    match available_parallelism(rt) {
        Ok(processors) => processors
            .get()
            .saturating_mul(2)
            .ilog2()
            .min(MOST_HALVINGS),
        Err(_) => 0,
    }
}

/// Reads the lines of an input, which count from 1, in parts: with 0 halvings in one part, with 3 in eight. At most 16
/// halvings are made. Out of memory is the only error: if no thread can be made, one does the work of several.
#[tactic(auto, using(crate::proofs::LineLemmas::told_plainly))]
pub fn read_lines_by_halves<R: Threads + Sync>(
    rt: &R,
    alloc: Global,
    input: &[u8],
    halvings: u32,
) -> Result<Intake, AllocError>
    ensures messages { IfOk result (λ intake. messages_in intake.messages.items ≡ messages_read input.now) }
    ensures told { IfOk result (λ intake. intake.refusals.text ≡ told_text_of (refusals_told input.now)) }
    ensures refused { IfOk result (λ intake. intake.refusals.count ≡ length (refusals_told input.now)) }
{
    let halvings = halvings.min(MOST_HALVINGS);
    let shortage = Shortage::none();
    let read = read_by_halves(rt, alloc, "", 0, input, 0, halvings, &shortage)?;
    Ok(read.intake)
}

/// Reads the lines of an input, which count from 1, in as many threads as there are processors. The only error is that it
/// is out of memory: if no thread can be made, one does the work of several. O(input).
pub fn read_lines<R: Threads + Sync>(
    rt: &R,
    alloc: Global,
    input: &[u8],
) -> Result<Intake, AllocError>
    ensures messages { IfOk result (λ intake. messages_in intake.messages.items ≡ messages_read input.now) }
    ensures told { IfOk result (λ intake. intake.refusals.text ≡ told_text_of (refusals_told input.now)) }
    ensures refused { IfOk result (λ intake. intake.refusals.count ≡ length (refusals_told input.now)) }
{
    read_lines_by_halves(rt, alloc, input, halvings(rt, input))
}

/// Reads the lines of a file as [`read_lines`] reads those of an input. `label` is written before each line that reports a
/// refused one, such as `file 1 `.
pub fn read_file_lines<R: Threads + Sync>(
    rt: &R,
    alloc: Global,
    label: &str,
    input: &[u8],
) -> Result<Intake, AllocError>
    ensures messages { IfOk result (λ intake. messages_in intake.messages.items ≡ messages_read input.now) }
    ensures told { IfOk result (λ intake. intake.refusals.text
        ≡ told_after label.now (refusals_told input.now)) }
    ensures refused { IfOk result (λ intake. intake.refusals.count ≡ length (refusals_told input.now)) }
{
    let halvings = halvings(rt, input);
    let shortage = Shortage::none();
    let read = read_by_halves(rt, alloc, label, 0, input, 0, halvings, &shortage)?;
    Ok(read.intake)
}

impl LinesRead {
    /// Reads the block of lines that comes next in a text, in as many threads as there are processors. The lines count on from
    /// those before. A last line that has no line feed is ended by one before the block. The only error is that it is out of
    /// memory. All that was read is lost then. O(block).
    pub fn with_block<R: Threads + Sync>(
        self,
        rt: &R,
        alloc: Global,
        block: &[u8],
    ) -> Result<LinesRead, AllocError>
        requires few { length (lines_of self) + length block.now < 2 ^ 64 }
        ensures text { IfOk result (λ text. IsOfWholeLines self → text ≡ self ++ block.now) }
        ensures ended { IfOk result (λ text. text ≡ with_last_feed self ++ block.now) }
    {
        let LinesRead {
            text,
            intake,
            lines,
        } = self;
        let mut read = PartRead { intake, lines };
        let halvings = halvings(rt, block);
        let shortage = Shortage::none();
        let next = read_by_halves(rt, alloc, "", read.lines, block, 0, halvings, &shortage)?;
        read.append(next)?;
        let PartRead { intake, lines } = read;
        Ok(LinesRead {
            text: text.then(block),
            intake,
            lines,
        })
    }
}
