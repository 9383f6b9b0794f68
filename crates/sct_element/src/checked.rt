//! A text of bounded length that keeps the rule of its type.
ghost use Rattle.std.specs.Prelude.{◌≡◌, ◌+◌, ◌<◌, ◌++◌, ◌∷◌, [], ℕ, List, Option, Some, None, MatchOption, IsTrue, ◌≤◌, length, ok_or, nat_eq, refl};
ghost use Rattle.std.specs.Ordering.{nat_cmp};
ghost use Rattle.std.specs.Cmp.{on_equiv, on_total, on_po, on_per, partial_equiv_from_equiv};
ghost use Rattle.std.specs.Cmp.Lexicographic.{pointwise, slice_cmp, nat_list_eq_equiv, nat_list_cmp_total, texts_po, texts_ties};
ghost use Rattle.std.specs.Cmp.Rules.{hashing};
ghost use Rattle.std.specs.Hash as fed;
ghost use Rattle.std.proofs.Common.{rules};
ghost use Rattle.sct_element.specs.Text.{where_read};
ghost use Rattle.sct_element.specs.declared.faults.ElementFault.{ElementFault};

use crate::faults::ElementFault;
use arrayvec::ArrayString;
use std::cmp::Ordering;
use std::fmt;
use std::hash::{Hash, Hasher};
use std::marker::{Model, PhantomData};

/// The rule of one type of text: which texts are read, and how each is kept and written.
pub trait Rule<const N: usize> {
    ghost written: { List ℕ → Option (List ℕ) };

    ghost fault: { ElementFault };

    /// The written form of a text, or none if the text is not of this type.
    fn keep(text: &str) -> Option<ArrayString<N>>
        ensures { MatchOption result (written text.now ≡ None) (λ kept. written text.now ≡ Some kept.bytes) };

    /// The fault of a text that is not of this type.
    fn refusal() -> ElementFault
        ensures { result ≡ fault };

    // A written form is read as itself.
    ghost settles: { (s t : List ℕ) → written s ≡ Some t → written t ≡ Some t };
}

/// A text of at most `N` bytes that was read by the rule `R`, in its written form. It never allocates.
pub struct Checked<R: Rule<N>, const N: usize> {
    text: ArrayString<N>,
    rule: PhantomData<R>,
}

impl<R: Rule<N>, const N: usize> Model for Checked<R, N> {
    ghost Value = { List ℕ };

    ghost view = { λ t. t.text.bytes };

    ghost invariant = { λ t. R.written t.text.bytes ≡ Some t.text.bytes };
}

impl<R: Rule<N>, const N: usize> Drop for Checked<R, N> {
    fn drop(self) {
        let Checked { text: _, rule: _ } = self;
    }
}

impl<R: Rule<N>, const N: usize> Checked<R, N> {
    /// Reads a text. Error: the fault of the type. Functions such as `read_bic` state the rule of each type.
    pub fn read(text: &str) -> Result<Self, ElementFault>
        ensures { result ≡ ok_or (R.written text.now) R.fault }
    {
        match R::keep(text) {
            Some(text) => Ok(Checked {
                text,
                rule: PhantomData,
            }),
            None => Err(R::refusal()),
        }
    }

    /// The written form, which is read as the same value again.
    pub fn text(&self) -> &str
        ensures text { result.now ≡ self.now }
        ensures settled { R.written result.now ≡ Some result.now }
    {
        self.text.as_str()
    }

    /// A copy. It does not allocate.
    pub fn copy(&self) -> Self
        ensures { result ≡ self.now }
    {
        Checked {
            text: self.text,
            rule: PhantomData,
        }
    }
}

/// A copy of `text`, or none if it failed its test. `N` bytes are room enough for a text that passes.
pub fn kept_where<const N: usize>(passes: bool, text: &str) -> Option<ArrayString<N>>
    requires { IsTrue passes → length text.now ≤ N }
    ensures { MatchOption result (where_read passes text.now ≡ None)
        (λ kept. where_read passes text.now ≡ Some kept.bytes) }
{
    if !passes {
        return None;
    }
    let mut kept = ArrayString::new();
    kept.push_str(text);
    Some(kept)
}

/// Appends an ASCII byte, which is a character by itself.
#[tactic(auto, using(std::proofs::lemmas::Str::Ascii::encode_ascii))]
pub fn push_byte<const N: usize>(text: &mut ArrayString<N>, byte: u8)
    requires ascii { byte < 128 }
    requires room { length text.old.bytes < N }
    ensures bytes { text.new.bytes ≡ text.old.bytes ++ byte ∷ [] }
    ensures len { length text.new.bytes ≡ length text.old.bytes + 1 }
{
    text.push(char::from(byte));
}

impl<R: Rule<N>, const N: usize> PartialEq for Checked<R, N> {
    ghost eq = { λ s t. pointwise nat_eq s t };

    ghost laws = { on_per (λ s. s) (partial_equiv_from_equiv nat_list_eq_equiv) };

    fn eq(&self, other: &Self) -> bool {
        self.text() == other.text()
    }
}

impl<R: Rule<N>, const N: usize> Eq for Checked<R, N> {
    ghost laws = { on_equiv (λ s. s) nat_list_eq_equiv };
}

impl<R: Rule<N>, const N: usize> PartialOrd for Checked<R, N> {
    ghost partial_cmp = { λ s t. Some (slice_cmp nat_cmp s t) };

    ghost laws = { on_po (λ s. s) texts_po };

    fn partial_cmp(&self, other: &Self) -> Option<Ordering> {
        Some(self.cmp(other))
    }
}

impl<R: Rule<N>, const N: usize> Ord for Checked<R, N> {
    ghost cmp = { λ s t. slice_cmp nat_cmp s t };

    ghost total = { on_total (λ s. s) nat_list_cmp_total };

    ghost matches_partial_cmp = { λ s t. refl };

    ghost matches_eq = { λ s t. texts_ties s t };

    fn cmp(&self, other: &Self) -> Ordering {
        self.text().cmp(other.text())
    }
}

impl<R: Rule<N>, const N: usize> Hash for Checked<R, N> {
    ghost hash_input = { λ s. fed.str s };

    ghost respects_eq = { Prim.search (hashing, rules) };

    fn hash<H: Hasher>(&self, state: &mut H) {
        self.text().hash(state);
    }
}

impl<R: Rule<N>, const N: usize> fmt::Debug for Checked<R, N> {
    fn fmt<W: fmt::Write>(&self, f: &mut fmt::Formatter<W>) -> fmt::Result {
        fmt::Debug::fmt(&self.text(), f)
    }
}
