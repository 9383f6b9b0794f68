//! What a site reads in lines, without taking them.

ghost use Rattle.std.specs.Prelude.{◌≡◌, ◌++◌, ◌∷◌, [], IfOk, OnOk};
ghost use Rattle.sct_json.specs.Reading.{message_in};
ghost use Rattle.sct_lines.specs.Lines.{numbered_from, refusal_line};
ghost use Rattle.sct_embed.specs.Reading.{read_as, reading_text_of, readings_of};

use crate::texts::push_line;
use sct_json::{JsonFault, MessageReader};
use sct_lines::{first_line, is_blank_line, push_json_fault};
use std::alloc::{AllocError, Global};
use std::fmt::Write;

// Appends the line that reports why a line is refused.
#[tactic(auto, unfolding(sct_lines::specs::Lines::refusal_line))]
fn push_refusal(
    alloc: Global,
    text: &mut Vec<u8>,
    number: u64,
    fault: &JsonFault,
) -> Result<(), AllocError>
    ensures { OnOk result (text.new.items ≡ text.old.items ++ refusal_line (number, fault.now)) }
{
    let mut refusal = String::new(alloc);
    write!(refusal, "line {number}: ")?;
    push_json_fault(alloc, &mut refusal, fault)?;
    refusal.push('\n')?;
    text.extend_from_slice(refusal.as_bytes())
}

// Appends what a line is read as: its message, or why it is refused.
fn push_reading(
    alloc: Global,
    reader: &mut MessageReader,
    text: &mut Vec<u8>,
    number: u64,
    line: &[u8],
) -> Result<(), AllocError>
    ensures { OnOk result (text.new.items ≡ text.old.items ++ read_as number (message_in line.now)) }
{
    match reader.read(line) {
        Ok(message) => push_line(alloc, text, &message),
        Err(JsonFault::Memory) => Err(AllocError),
        Err(fault) => push_refusal(alloc, text, number, &fault),
    }
}

// Appends what a line is read as, if it is not blank.
fn push_line_read(
    alloc: Global,
    reader: &mut MessageReader,
    text: &mut Vec<u8>,
    number: u64,
    line: &[u8],
) -> Result<(), AllocError>
    ensures { OnOk result (text.new.items
        ≡ text.old.items ++ readings_of (numbered_from number (line.now ∷ []))) }
{
    if is_blank_line(line) {
        return Ok(());
    }
    push_reading(alloc, reader, text, number, line)
}

/// What each line of a text is read as that is not blank. O(bytes of the text).
pub(crate) fn read_text(
    alloc: Global,
    reader: &mut MessageReader,
    input: &[u8],
) -> Result<Vec<u8>, AllocError>
    ensures { IfOk result (λ text. text.items ≡ reading_text_of input.now) }
{
    let mut text = Vec::new(alloc);
    let mut number = 0;
    let mut rest = input;
    while let Some((line, after)) = first_line(rest) {
        number += 1;
        push_line_read(alloc, reader, &mut text, number, line)?;
        rest = after;
    }
    Ok(text)
}
