//! Questions to the site of a place, and texts of it that are copied to a caller's room.

ghost use Rattle.std.specs.Prelude.{◌≡◌, false, length};
ghost use Rattle.sct_place.specs.Outcomes.{refused_as};
ghost use Rattle.sct_place.specs.Places.{Asks, Copies, CopiesPart, CopiesReason, EndsAnswer, Evaluates, IsCalled, IsCopied, part_of};

use crate::kept::KeptSite;
use crate::outcomes::CallOutcome;
use crate::place::Place;
use sct_embed::{EmbedFault, Question};
use std::alloc::Global;

/// Copies a text to the start of the room if it fits, and returns its length.
pub(crate) fn copy_text(text: &[u8], out: &mut [u8]) -> usize
    ensures length { result ≡ length text.now }
    ensures copied { IsCopied text.now out.old out.new }
{
    let length = text.len();
    if length <= out.len() {
        out[..length].copy_from_slice(text);
    }
    length
}

// Copies a part of a text: what comes after its first `from` bytes, as far as there is room. Returns the length of the part.
fn copy_part(text: &[u8], from: usize, out: &mut [u8]) -> usize
    ensures length { result ≡ length (part_of from (length out.old) text.now) }
    ensures copied { IsCopied (part_of from (length out.old) text.now) out.old out.new }
{
    let rest = if from <= text.len() {
        &text[from..]
    } else {
        &[]
    };
    let count = rest.len().min(out.len());
    copy_text(&rest[..count], out)
}

// Copies the text of the reason that is kept.
fn say(alloc: Global, kept: &KeptSite, out: &mut [u8]) -> CallOutcome
    ensures said { CopiesReason out.old out.new kept.now result kept.now }
    ensures unwritten { result.ok ≡ false → out.new ≡ out.old }
{
    match kept.why_text(alloc) {
        Ok(text) => CallOutcome::done(copy_text(text.as_bytes(), out)),
        Err(_) => CallOutcome::refused(&EmbedFault::Memory),
    }
}

impl Place {
    /// Asks the site a question. Its text becomes the answer, and its length is returned.
    /// Refusals: those of the question, `Memory` (65), `Empty` (70).
    pub fn ask(&mut self, alloc: Global, question: Question<'_>) -> CallOutcome
        ensures { IsCalled refused_as (Asks question.entry) self.old.handle.held result self.new.handle.held }
    {
        let Some(mut kept) = self.take_out(alloc) else {
            return CallOutcome::refused(&EmbedFault::Empty);
        };
        let done = kept.content.ask(alloc, question);
        let outcome = CallOutcome::of(&done, kept.content.answer().len());
        kept.keep_why(done);
        self.put_in(kept);
        outcome
    }

    /// Evaluates what is new. No answer changes. Refusals: `Memory` (65), `Empty` (70).
    pub fn evaluate(&mut self, alloc: Global) -> CallOutcome
        ensures { IsCalled refused_as Evaluates self.old.handle.held result self.new.handle.held }
    {
        let Some(mut kept) = self.take_out(alloc) else {
            return CallOutcome::refused(&EmbedFault::Empty);
        };
        let done = kept.content.evaluate(alloc);
        let outcome = CallOutcome::of(&done, kept.content.answer().len());
        kept.keep_why(done);
        self.put_in(kept);
        outcome
    }

    /// Copies the answer, if it fits, and says its length. Refusal: `Empty` (70).
    pub fn answer(&mut self, _alloc: Global, out: &mut [u8]) -> CallOutcome
        ensures called { IsCalled refused_as (Copies out.old out.new) self.old.handle.held result self.new.handle.held }
        ensures unwritten { result.ok ≡ false → out.new ≡ out.old }
    {
        let Some(kept) = self.kept_mut() else {
            return CallOutcome::refused(&EmbedFault::Empty);
        };
        CallOutcome::done(copy_text(kept.content.answer(), out))
    }

    /// Copies a part of the answer: what comes after its first `from` bytes, as far as there is room. Says the length of the part.
    /// Refusal: `Empty` (70).
    pub fn answer_part(&mut self, _alloc: Global, from: usize, out: &mut [u8]) -> CallOutcome
        ensures called { IsCalled refused_as (CopiesPart from out.old out.new) self.old.handle.held result self.new.handle.held }
        ensures unwritten { result.ok ≡ false → out.new ≡ out.old }
    {
        let Some(kept) = self.kept_mut() else {
            return CallOutcome::refused(&EmbedFault::Empty);
        };
        CallOutcome::done(copy_part(kept.content.answer(), from, out))
    }

    /// The answer becomes empty, and its memory is freed. Refusal: `Empty` (70).
    pub fn end_answer(&mut self, alloc: Global) -> CallOutcome
        ensures { IsCalled refused_as EndsAnswer self.old.handle.held result self.new.handle.held }
    {
        let Some(mut kept) = self.take_out(alloc) else {
            return CallOutcome::refused(&EmbedFault::Empty);
        };
        kept.content.end_answer();
        self.put_in(kept);
        CallOutcome::done(0)
    }

    /// Copies why the last call was refused, if it fits, and says the length of that text. It is empty if that call was not
    /// refused. Refusals: `Memory` (65), `Empty` (70).
    pub fn why(&mut self, alloc: Global, out: &mut [u8]) -> CallOutcome
        ensures called { IsCalled refused_as (CopiesReason out.old out.new) self.old.handle.held result self.new.handle.held }
        ensures unwritten { result.ok ≡ false → out.new ≡ out.old }
    {
        let Some(kept) = self.kept_mut() else {
            return CallOutcome::refused(&EmbedFault::Empty);
        };
        say(alloc, kept, out)
    }
}
