//! The elements that a key's text may be read as.
ghost use Rattle.std.specs.Prelude.{◌≡◌, ℕ, List, Bool, true, false, Option, OnOk};
ghost use Rattle.sct_element.specs.Text.{where_read};
ghost use Rattle.sct_element.specs.Money.{cents_of, amount_text};
ghost use Rattle.sct_element.specs.Party.{has_characters};
ghost use Rattle.sct_element.specs.declared.faults.ElementFault.{ElementFault};
ghost use Rattle.sct_element.specs.declared.faults.ElementFault.TheVariants.{BadAmount, BadCode, BadText};
ghost use Rattle.sct_reason.specs.Codes.{reason_text};
ghost use Rattle.sct_reason.specs.Reasons.{reason_of};
ghost use Rattle.sct_json.specs.Reading.{ReadsElement, is_want_of_memory};
ghost use Rattle.sct_json.specs.Line.{with_text, Writes};
ghost use Rattle.sct_json.specs.Writing.{ReadsBack};

use json::Writer;
use sct_element::{Amount, Checked, ElementFault, FreeText, Rule};
use sct_reason::Reason;
use std::alloc::{AllocError, Global};

/// A type of element: what a text is read as, or the type's own fault.
pub(crate) trait Element: Drop {
    ghost reads: { List ℕ → Option Self };

    ghost refusal: { ElementFault };

    ghost written: { Self → List ℕ };

    // Whether reading a text takes memory.
    ghost takes_memory: { Bool };

    fn read_element(alloc: Global, text: &str) -> Result<Self, ElementFault>
        ensures { ReadsElement takes_memory (reads text.now) refusal result };

    /// Writes the written form as a JSON text.
    fn put(&self, out: &mut Writer) -> Result<(), AllocError>
        ensures { OnOk result (Writes (with_text (written self.now)) out.old out.new) };

    /// A law: the written form is read as the element.
    fn reads_back(&self)
        ensures { ReadsBack reads written self.now };
}

impl<R: Rule<N>, const N: usize> Element for Checked<R, N> {
    ghost reads = { R.written };

    ghost refusal = { R.fault };

    ghost written = { λ s. s };

    // A fault of the type is never out of memory.
    ghost takes_memory = { is_want_of_memory R.fault };

    fn read_element(_alloc: Global, text: &str) -> Result<Self, ElementFault> {
        Checked::read(text)
    }

    fn put(&self, out: &mut Writer) -> Result<(), AllocError> {
        out.string(self.text())
    }

    fn reads_back(&self) {
        // For the contract alone: it says that the value is one that the type reads.
        let _ = self.text();
    }
}

impl Element for Reason {
    ghost reads = { reason_of };

    ghost refusal = { BadCode };

    ghost written = { reason_text };

    ghost takes_memory = { false };

    fn read_element(_alloc: Global, text: &str) -> Result<Self, ElementFault> {
        Reason::read(text).ok_or(ElementFault::BadCode)
    }

    fn put(&self, out: &mut Writer) -> Result<(), AllocError> {
        out.string(self.text())
    }

    fn reads_back(&self) {}
}

impl Element for Amount {
    ghost reads = { cents_of };

    ghost refusal = { BadAmount };

    ghost written = { amount_text };

    ghost takes_memory = { false };

    fn read_element(_alloc: Global, text: &str) -> Result<Self, ElementFault> {
        Amount::read(text)
    }

    fn put(&self, out: &mut Writer) -> Result<(), AllocError> {
        out.string(self.text().as_str())
    }

    fn reads_back(&self) {
        // For the contract alone: it says that the value is one that the type reads.
        let _ = self.text();
    }
}

impl<const MOST: usize> Element for FreeText<MOST> {
    ghost reads = { λ s. where_read (has_characters MOST s) s };

    ghost refusal = { BadText };

    ghost written = { λ s. s };

    ghost takes_memory = { true };

    fn read_element(alloc: Global, text: &str) -> Result<Self, ElementFault> {
        FreeText::read(alloc, text)
    }

    fn put(&self, out: &mut Writer) -> Result<(), AllocError> {
        out.string(self.text())
    }

    fn reads_back(&self) {
        // For the contract alone: it says that the value is one that the type reads.
        let _ = self.text();
    }
}
