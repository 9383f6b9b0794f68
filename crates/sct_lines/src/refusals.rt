//! Refused lines: the text that reports them, and how many they are.
ghost use Rattle.std.specs.Prelude.{◌≡◌, ◌≤◌, ◌+◌, ◌++◌, [], length, OnErr, OnOk, string_bytes};
ghost use Rattle.sct_lines.specs.Refused.{reporting_line};

use std::alloc::{AllocError, Global};
use std::fmt::Write;
use std::marker::Model;
use std::mem;

/// Why a line is refused.
pub trait RefusalReason {
    ghost use Rattle.std.specs.Prelude.{◌≡◌, ◌++◌, ℕ, List, OnOk, string_bytes};

    /// The text that [`RefusalReason::push_text`] appends.
    ghost reason_text: { Self → List ℕ };

    /// Appends the number of the fault and its arguments, with a space between each two.
    fn push_text(&self, alloc: Global, text: &mut String) -> Result<(), AllocError>
        ensures { OnOk result (string_bytes text.new ≡ string_bytes text.old ++ reason_text self.now) };
}

/// Refused lines: the text that reports them, one line for each, and how many they are.
#[derive(Drop)]
pub struct Refusals {
    text: String,
    count: u64,
}

impl Model for Refusals {
    ghost use Rattle.std.specs.Prelude.{◌≤◌, length, string_bytes};
    ghost use Rattle.sct_lines.specs.Refused.{Refused};

    ghost Value = { Refused };

    ghost view = { λ r. record { text = string_bytes r.text; count = r.count } };

    ghost invariant = { λ r. r.count ≤ length (string_bytes r.text) };
}

impl Refusals {
    /// No refused lines.
    pub fn none(alloc: Global) -> Refusals
        ensures text { result.text ≡ [] }
        ensures count { result.count ≡ 0 }
    {
        Refusals {
            text: String::new(alloc),
            count: 0,
        }
    }

    /// The text that reports the lines.
    pub fn text(&self) -> &str
        ensures { result.now ≡ self.now.text }
    {
        self.text.as_str()
    }

    /// How many lines are refused.
    pub fn count(&self) -> u64
        ensures { result ≡ self.now.count }
    {
        self.count
    }

    /// The text that reports the lines, and how many they are: not more than the text has bytes.
    pub fn into_parts(self) -> (String, u64)
        ensures text { string_bytes result.0 ≡ self.text }
        ensures count { result.1 ≡ self.count }
        ensures most { result.1 ≤ length (string_bytes result.0) }
    {
        let Refusals { text, count } = self;
        (text, count)
    }

    /// Adds a line that is refused for this reason. `front` is written before the line that reports it, such as `file 2 `.
    /// The only error is that it is out of memory. All refused lines are lost then.
    pub fn push<R: RefusalReason>(
        &mut self,
        alloc: Global,
        front: &str,
        number: u64,
        reason: &R,
    ) -> Result<(), AllocError>
        ensures text { OnOk result (self.new.text
            ≡ self.old.text ++ front.now ++ reporting_line number (R.reason_text reason.now)) }
        ensures count { OnOk result (self.new.count ≡ self.old.count + 1) }
    {
        let Refusals { mut text, count } = mem::replace(self, Refusals::none(alloc));
        text.push_str(front)?;
        write!(text, "line {number}: ")?;
        reason.push_text(alloc, &mut text)?;
        text.push('\n')?;
        *self = Refusals {
            text,
            count: count + 1,
        };
        Ok(())
    }

    /// Adds the refused lines of what follows. On `Err` unchanged: it is out of memory.
    pub fn append(&mut self, other: Refusals) -> Result<(), AllocError>
        ensures text { OnOk result (self.new.text ≡ self.old.text ++ other.text) }
        ensures count { OnOk result (self.new.count ≡ self.old.count + other.count) }
        ensures err { OnErr result (self.new ≡ self.old) }
    {
        let Refusals { text, count } = other;
        self.text.push_str(text.as_str())?;
        self.count += count;
        Ok(())
    }
}
