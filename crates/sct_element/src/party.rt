//! Names of parties and remittance information: texts of any characters, of bounded length.
ghost use Rattle.std.specs.Prelude.{◌≡◌, ◌≢◌, ℕ, ◌&&◌, List, Some, None, IsTrue, IsFalse, MatchResult, IfOk, IfErr, nat_eq, nat_le, length, chars, string_bytes, refl};
ghost use Rattle.std.specs.Ordering.{nat_cmp};
ghost use Rattle.std.specs.Cmp.{on_equiv, on_total, on_po, on_per, partial_equiv_from_equiv};
ghost use Rattle.std.specs.Cmp.Lexicographic.{pointwise, slice_cmp, nat_list_eq_equiv, nat_list_cmp_total, texts_po, texts_ties};
ghost use Rattle.std.specs.Cmp.Rules.{hashing};
ghost use Rattle.std.specs.Hash as fed;
ghost use Rattle.std.proofs.Common.{rules};
ghost use Rattle.sct_element.specs.Party.{has_characters, ReadsFree};

use crate::characters::is_within;
use crate::faults::ElementFault;
use std::alloc::Global;
use std::cmp::Ordering;
use std::hash::{Hash, Hasher};
use std::marker::Model;

/// The name of a party (Max70Text): 1 to 70 characters of any kind, kept as read.
pub type Name = FreeText<70>;

/// Unstructured remittance information (Max140Text): 1 to 140 characters of any kind, kept as read.
pub type Remittance = FreeText<140>;

/// A text of 1 to `MOST` characters, which are Unicode scalar values.
#[derive(Debug, Drop)]
pub struct FreeText<const MOST: usize> {
    text: String,
}

impl<const MOST: usize> Model for FreeText<MOST> {
    ghost Value = { List ℕ };

    ghost view = { λ t. string_bytes t.text };

    ghost invariant = { λ t. IsTrue (has_characters MOST (string_bytes t.text)) };
}

impl<const MOST: usize> FreeText<MOST> {
    /// Reads a text. Errors: `BadText` (6) if it is empty or too long; `Memory` (8) for a right text, if it is out of
    /// memory.
    pub fn read(alloc: Global, text: &str) -> Result<Self, ElementFault>
        ensures { ReadsFree MOST text.now result }
    {
        if !has_characters(text, MOST) {
            return Err(ElementFault::BadText);
        }
        match String::from_str(alloc, text) {
            Ok(text) => Ok(FreeText { text }),
            Err(_) => Err(ElementFault::Memory),
        }
    }

    /// The text.
    pub fn text(&self) -> &str
        ensures text { result.now ≡ self.now }
        ensures sized { IsTrue (has_characters MOST result.now) }
    {
        self.text.as_str()
    }
}

/// Reads a name of 1 to 70 characters, as `Name::read` does. Errors: `BadText` (6), `Memory` (8).
/// The program does not call it; users of the library can.
pub fn read_name(alloc: Global, text: &str) -> Result<Name, ElementFault>
    ensures { ReadsFree 70 text.now result }
{
    Name::read(alloc, text)
}

/// Reads remittance information of 1 to 140 characters, as `Remittance::read` does. Errors: `BadText` (6), `Memory`
/// (8). The program does not call it; users of the library can.
pub fn read_remittance(alloc: Global, text: &str) -> Result<Remittance, ElementFault>
    ensures { ReadsFree 140 text.now result }
{
    Remittance::read(alloc, text)
}

#[tactic(auto, using(std::proofs::lemmas::Str::chars_from_encodes))]
fn count(text: &str) -> usize
    ensures { result ≡ length (chars text.now) }
{
    text.chars().count()
}

/// Whether a text has 1 to `most` characters. A character has at least one byte, so a text of no more bytes is not counted.
fn has_characters(text: &str, most: usize) -> bool
    ensures { result ≡ has_characters most text.now }
{
    is_within(text.len(), most) || is_within(count(text), most)
}

impl<const MOST: usize> PartialEq for FreeText<MOST> {
    ghost eq = { λ s t. pointwise nat_eq s t };

    ghost laws = { on_per (λ s. s) (partial_equiv_from_equiv nat_list_eq_equiv) };

    fn eq(&self, other: &Self) -> bool {
        self.text() == other.text()
    }
}

impl<const MOST: usize> Eq for FreeText<MOST> {
    ghost laws = { on_equiv (λ s. s) nat_list_eq_equiv };
}

impl<const MOST: usize> PartialOrd for FreeText<MOST> {
    ghost partial_cmp = { λ s t. Some (slice_cmp nat_cmp s t) };

    ghost laws = { on_po (λ s. s) texts_po };

    fn partial_cmp(&self, other: &Self) -> Option<Ordering> {
        Some(self.cmp(other))
    }
}

impl<const MOST: usize> Ord for FreeText<MOST> {
    ghost cmp = { λ s t. slice_cmp nat_cmp s t };

    ghost total = { on_total (λ s. s) nat_list_cmp_total };

    ghost matches_partial_cmp = { λ s t. refl };

    ghost matches_eq = { λ s t. texts_ties s t };

    fn cmp(&self, other: &Self) -> Ordering {
        self.text().cmp(other.text())
    }
}

impl<const MOST: usize> Hash for FreeText<MOST> {
    ghost hash_input = { λ s. fed.str s };

    ghost respects_eq = { Prim.search (hashing, rules) };

    fn hash<H: Hasher>(&self, state: &mut H) {
        self.text().hash(state);
    }
}
