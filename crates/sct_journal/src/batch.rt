//! Lines that are appended together.

ghost use Rattle.std.specs.Prelude.{◌≡◌, ◌++◌, ◌∷◌, [], ◌==◌, length, take, IfOk, OnOk, OnErr};
ghost use Rattle.sct_journal.specs.Kept.{IsLine, at_rest, gated_line};

use crate::lines::{OPEN, SHUT};
use std::alloc::{AllocError, Global};
use std::marker::Model;

/// Lines that are appended together: a list of lines. It holds their bytes, each line behind an open gate.
#[derive(Drop)]
pub struct Batch {
    text: Vec<u8>,
}

impl Model for Batch {
    ghost use Rattle.std.specs.Prelude.{ℕ, List, ◌≡◌};

    ghost Value = { List (List ℕ) };

    ghost use Rattle.sct_journal.specs.Kept.{gated, kept};

    ghost view = { λ batch. kept batch.text.items };

    ghost invariant = { λ batch. batch.text.items ≡ gated (kept batch.text.items) };
}

impl Batch {
    /// No lines.
    pub fn new(alloc: Global) -> Batch
        ensures { result ≡ [] }
    {
        Batch {
            text: Vec::new(alloc),
        }
    }

    /// Whether there are no lines.
    pub fn is_empty(&self) -> bool
        ensures { result ≡ (length self.now == 0) }
    {
        self.text.is_empty()
    }

    /// Adds a line behind the others. At `Err` memory ran out, and the lines are as they were.
    pub fn push(&mut self, line: &[u8]) -> Result<(), AllocError>
        requires { IsLine line.now }
        ensures added { OnOk result (self.new ≡ self.old ++ line.now ∷ []) }
        ensures same { OnErr result (self.new ≡ self.old) }
    {
        let len = self.text.len();
        match push_line(&mut self.text, line) {
            Ok(()) => Ok(()),
            Err(error) => {
                self.text.truncate(len);
                Err(error)
            }
        }
    }

    // The bytes of the lines, and the gate that is shut behind them.
    pub(crate) fn into_text(self) -> Result<Vec<u8>, AllocError>
        ensures { IfOk result (λ text. text.items ≡ at_rest self) }
    {
        let Batch { mut text } = self;
        text.push(SHUT)?;
        Ok(text)
    }
}

// Adds a line behind an open gate, and its line feed. At `Err` some of these bytes were added.
fn push_line(text: &mut Vec<u8>, line: &[u8]) -> Result<(), AllocError>
    ensures added { OnOk result (text.new.items ≡ text.old.items ++ gated_line line.now) }
    ensures front { take (length text.old.items) text.new.items ≡ text.old.items }
{
    text.push(OPEN)?;
    text.extend_from_slice(line)?;
    text.push(b'\n')?;
    Ok(())
}
