//! An input read line by line: the messages of its lines, and the lines that are refused.
ghost use Rattle.std.specs.Prelude.{◌≡◌, ◌+◌, ◌<◌, ◌≤◌, ◌++◌, ◌∷◌, [], ◌^◌, ◌-◌, length, vec_len, vec_capacity, IfOk, OnOk};
ghost use Rattle.sct_json.specs.Reading.{message_in};
ghost use Rattle.sct_lines.specs.Lines.{
  messages_among,
  messages_read,
  numbered_from,
  refusals_among,
  refusals_told,
  told_after,
};
ghost use Rattle.sct_lines.specs.Blocks.{IsReadOf};
ghost use Rattle.sct_lines.specs.Parts.{IsReadAfter};
ghost use Rattle.sct_message.specs.Sets.{messages_in};

use crate::before::LinesBefore;
use crate::lines::{first_line, is_blank_line};
use crate::refusals::Refusals;
use crate::shortage::Shortage;
use crate::text::TextRead;
use sct_json::{JsonFault, MessageReader};
use sct_message::Message;
use std::alloc::{AllocError, Global};
use std::marker::Model;
use std::sync::Arc;

/// What the lines of an input are: the messages that are read from them, and the refused lines.
#[derive(Drop)]
pub struct Intake {
    pub messages: Vec<Arc<Message>>,
    pub refusals: Refusals,
}

// The message that a line is a form of, or why it is none.
fn read_by(
    reader: &mut MessageReader,
    line: &[u8],
) -> Result<Result<Message, JsonFault>, AllocError>
    ensures { IfOk result (λ read. message_in line.now ≡ read) }
{
    match reader.read(line) {
        Err(JsonFault::Memory) => Err(AllocError),
        read => Ok(read),
    }
}

/// The message that a line is a form of, or why it is none. The outer error is that it is out of memory.
pub fn read_line(alloc: Global, line: &[u8]) -> Result<Result<Message, JsonFault>, AllocError>
    ensures { IfOk result (λ read. message_in line.now ≡ read) }
{
    read_by(&mut MessageReader::new(alloc), line)
}

impl Intake {
    // The intake of no lines.
    fn new(alloc: Global) -> Intake
        ensures messages { messages_in result.messages.items ≡ [] }
        ensures told { result.refusals.text ≡ [] }
        ensures refused { result.refusals.count ≡ 0 }
    {
        Intake {
            messages: Vec::new(alloc),
            refusals: Refusals::none(alloc),
        }
    }

    // Adds one line: its message, or its refusal. It is the line with this number of its part. `front` is written before
    // the line that reports the refusal.
    #[tactic(auto, using(crate::proofs::LineLemmas::one_line))]
    fn take(
        &mut self,
        alloc: Global,
        reader: &mut MessageReader,
        front: &str,
        before: &mut LinesBefore<'_>,
        number: u64,
        line: &[u8],
    ) -> Result<(), AllocError>
        requires { before.old + number < 2 ^ 64 }
        ensures before { before.new ≡ before.old }
        ensures messages { OnOk result (messages_in self.new.messages.items
            ≡ messages_in self.old.messages.items
            ++ messages_among (numbered_from (before.old + number) (line.now ∷ []))) }
        ensures told { OnOk result (self.new.refusals.text
            ≡ self.old.refusals.text
            ++ told_after front.now (refusals_among (numbered_from (before.old + number) (line.now ∷ [])))) }
        ensures refused { OnOk result (self.new.refusals.count
            ≡ self.old.refusals.count
            + length (refusals_among (numbered_from (before.old + number) (line.now ∷ [])))) }
    {
        if is_blank_line(line) {
            return Ok(());
        }
        match read_by(reader, line)? {
            Ok(message) => self.messages.push(Arc::new(alloc, message)?)?,
            Err(fault) => {
                let number = before.count() + number;
                self.refusals.push(alloc, front, number, &fault)?
            }
        }
        Ok(())
    }

    // Adds the lines that follow these.
    pub(crate) fn append(&mut self, other: Intake) -> Result<(), AllocError>
        ensures messages { OnOk result (messages_in self.new.messages.items
            ≡ messages_in self.old.messages.items ++ messages_in other.messages.items) }
        ensures told { OnOk result (self.new.refusals.text ≡ self.old.refusals.text ++ other.refusals.text) }
        ensures refused { OnOk result (self.new.refusals.count
            ≡ self.old.refusals.count + other.refusals.count) }
    {
        let Intake {
            mut messages,
            refusals,
        } = other;
        self.messages.append(&mut messages)?;
        self.refusals.append(refusals)
    }
}

// A part asks for memory ahead once in this many lines.
const LINES: u64 = 64;

// How many bytes it asks for: more than the messages of `LINES` lines take.
const AHEAD: usize = 98_304;

// Before every `LINES` lines, asks for `AHEAD` bytes and gives them back at once: an empty `room` has no byte afterwards. A
// thread's heap grows by no more than what is asked for. Each growth is a system call, which blocks the other threads. So the
// heap grows by many pages at a time. If there is not that much memory, each line asks for its own.
fn ask_ahead(room: &mut Vec<u8>, number: u64)
    ensures empty { room.new.items ≡ room.old.items }
    ensures back { vec_len room.old ≡ 0 → vec_capacity room.new ≡ 0 }
{
    if number % LINES == 0 {
        drop(room.reserve(AHEAD));
    }
    room.shrink_to_fit();
}

/// What is read of a text that comes in blocks of lines. A contract sees it as the text so far, whose bytes are not kept.
#[derive(Drop)]
pub struct LinesRead {
    pub(crate) text: TextRead,
    pub(crate) intake: Intake,
    pub(crate) lines: u64,
}

impl Model for LinesRead {
    ghost use Rattle.std.specs.Prelude.{◌≡◌, ℕ, List, length};

    ghost Value = { List ℕ };

    ghost use Rattle.sct_lines.specs.Blocks.{IsReadOf};
    ghost use Rattle.sct_lines.specs.Lines.{lines_of};

    ghost view = { λ read. read.text.bytes };

    ghost invariant = { λ read. IsReadOf read.text.bytes read.intake × (read.lines ≡ length (lines_of read.text.bytes)) };
}

impl LinesRead {
    /// Nothing is read: the text is empty.
    pub fn none(alloc: Global) -> LinesRead
        ensures { result ≡ [] }
    {
        LinesRead {
            text: TextRead::none(),
            intake: Intake::new(alloc),
            lines: 0,
        }
    }

    /// The messages that are read from the text, and the refused lines.
    pub fn into_intake(self) -> Intake
        ensures { IsReadOf self result }
    {
        let LinesRead { intake, .. } = self;
        intake
    }
}

// What some lines of an input are, and how many they are.
#[derive(Drop)]
pub(crate) struct PartRead {
    pub(crate) intake: Intake,
    pub(crate) lines: u64,
}

impl PartRead {
    // Adds the lines that follow.
    pub(crate) fn append(&mut self, next: PartRead) -> Result<(), AllocError>
        requires { self.old.lines + next.lines < 2 ^ 64 }
        ensures lines { OnOk result (self.new.lines ≡ self.old.lines + next.lines) }
        ensures messages { OnOk result (messages_in self.new.intake.messages.items
            ≡ messages_in self.old.intake.messages.items ++ messages_in next.intake.messages.items) }
        ensures told { OnOk result (self.new.intake.refusals.text
            ≡ self.old.intake.refusals.text ++ next.intake.refusals.text) }
        ensures refused { OnOk result (self.new.intake.refusals.count
            ≡ self.old.intake.refusals.count + next.intake.refusals.count) }
    {
        let PartRead { intake, lines } = next;
        self.intake.append(intake)?;
        self.lines += lines;
        Ok(())
    }
}

// Reads a part of an input. `front` is written before each line that reports a refused one. The part ends early if another
// part is out of memory.
pub(crate) fn read_part(
    alloc: Global,
    front: &str,
    before: &mut LinesBefore<'_>,
    part: &[u8],
    shortage: &Shortage,
) -> Result<PartRead, AllocError>
    requires { before.old + length part.now < 2 ^ 64 }
    ensures { IfOk result (IsReadAfter front.now before.old part.now) }
{
    let mut intake = Intake::new(alloc);
    let mut reader = MessageReader::new(alloc);
    let mut room = Vec::new(alloc);
    let mut lines = 0;
    let mut rest = part;
    while let Some((line, after)) = first_line(rest) {
        shortage.check()?;
        ask_ahead(&mut room, lines);
        lines += 1;
        intake.take(alloc, &mut reader, front, before, lines, line)?;
        rest = after;
    }
    Ok(PartRead { intake, lines })
}

/// Reads the lines of an input, which count from 1, in one thread. `front` is written before each line that reports a refused
/// one, such as `file 2 `. The only error is that it is out of memory.
pub fn read_lines_after(alloc: Global, front: &str, input: &[u8]) -> Result<Intake, AllocError>
    ensures messages { IfOk result (λ intake. messages_in intake.messages.items ≡ messages_read input.now) }
    ensures told { IfOk result (λ intake. intake.refusals.text
        ≡ told_after front.now (refusals_told input.now)) }
    ensures refused { IfOk result (λ intake. intake.refusals.count ≡ length (refusals_told input.now)) }
{
    let read = read_part(
        alloc,
        front,
        &mut LinesBefore::none(),
        input,
        &Shortage::none(),
    )?;
    Ok(read.intake)
}
