//! How many lines of an input are before a part of it.
ghost use Rattle.std.specs.Prelude.{◌≡◌, ◌+◌, ◌<◌, ◌≤◌, ◌==◌, ◌^◌, filter, length};

use memchr::memchr_iter;
use std::marker::Model;

// How many line feeds a text has.
#[tactic(auto, using(crate::proofs::PartLemmas::feeds_counted))]
fn count_feeds(text: &[u8]) -> u64
    ensures count { result ≡ length (filter (λ byte. byte == 10) text.now) }
    ensures most { result ≤ length text.now }
{
    memchr_iter(b'\n', text).count() as u64
}

// How many lines are before a part. They are counted only if a line of the part is refused.
#[derive(Drop)]
pub(crate) struct LinesBefore<'a> {
    // The lines that are counted.
    counted: u64,
    // The text after these, up to the part.
    text: &'a [u8],
}

impl<'a> Model for LinesBefore<'a> {
    ghost use Rattle.std.specs.Prelude.{ℕ, ◌+◌, ◌<◌, ◌==◌, ◌^◌, filter, length};

    ghost Value = { ℕ };

    ghost view = { λ b. b.counted + length (filter (λ byte. byte == 10) b.text.now) };

    ghost invariant = { λ b. b.counted + length b.text.now < 2 ^ 64 };
}

impl<'a> LinesBefore<'a> {
    // No line is before the part.
    pub(crate) fn none() -> LinesBefore<'a>
        ensures { result ≡ 0 }
    {
        LinesBefore {
            counted: 0,
            text: &[],
        }
    }

    // These lines, and those of a text of whole lines.
    pub(crate) fn of(counted: u64, text: &'a [u8]) -> LinesBefore<'a>
        requires { counted + length text.now < 2 ^ 64 }
        ensures { result ≡ counted + length (filter (λ byte. byte == 10) text.now) }
    {
        LinesBefore { counted, text }
    }

    // Their number. The text is searched at the first call. O(text).
    pub(crate) fn count(&mut self) -> u64
        ensures count { result ≡ self.old }
        ensures same { self.new ≡ self.old }
    {
        self.counted += count_feeds(self.text);
        self.text = &[];
        self.counted
    }
}
