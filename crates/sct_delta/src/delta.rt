//! A delta: entries of several origins, without a hole in the numbers of an origin.

ghost use Rattle.std.specs.Prelude.{◌≡◌, ◌↔◌, List, Some, None, Ok, Err, OnOk, MatchOption};
ghost use Rattle.sct_delta.specs.Entries.{Placed, IsDelta};
ghost use Rattle.sct_delta.specs.Shapes.{are_of_sites, delta_refusal, first_break, may_be_next};

use crate::entry::Entry;
use crate::fault::DeltaFault;
use crate::sites::is_site;
use std::marker::Model;

/// Entries that ascend by origin and number. The numbers of each origin follow each other without a hole.
#[derive(Drop)]
pub struct Delta {
    entries: Vec<Entry>,
}

impl Model for Delta {
    ghost use Rattle.std.specs.Prelude.{List};
    ghost use Rattle.sct_delta.specs.Entries.{Placed, IsDelta};

    ghost Value = { List Placed };

    ghost view = { λ d. d.entries.items };

    ghost invariant = { λ d. IsDelta d.entries.items };
}

/// Entries make a delta exactly if they are not refused.
pub fn entries_make_a_delta()
    ensures { (entries : List Placed) → IsDelta entries ↔ (delta_refusal entries ≡ None) }
{}

// Whether each entry has the number of a site as its origin.
fn are_of_sites(entries: &[Entry]) -> bool
    ensures { result ≡ are_of_sites entries.now }
{
    entries.iter().all(|entry| is_site(entry.origin))
}

/// Whether the entry may come after an entry of this origin and number. Both are 0 before the first entry.
pub(crate) fn may_be_next(origin: u16, n: u64, entry: &Entry) -> bool
    ensures { result ≡ may_be_next origin n entry.now }
{
    if entry.n == 0 {
        return false;
    }
    if origin == entry.origin {
        n == entry.n - 1
    } else {
        origin < entry.origin
    }
}

// The place, from 1, of the first entry that may not come after the one before it.
fn first_break(entries: &[Entry]) -> Option<u64>
    ensures { result ≡ first_break 1 0 0 entries.now }
{
    let mut place = 1;
    let mut origin = 0;
    let mut n = 0;
    for entry in entries {
        if !may_be_next(origin, n, entry) {
            return Some(place);
        }
        place += 1;
        origin = entry.origin;
        n = entry.n;
    }
    None
}

// Why the entries do not make a delta, or none if they do.
#[tactic(auto, unfolding(crate::specs::Shapes::delta_refusal))]
fn refusal(entries: &[Entry]) -> Option<DeltaFault>
    ensures { result ≡ delta_refusal entries.now }
{
    if !are_of_sites(entries) {
        return Some(DeltaFault::BadSite);
    }
    match first_break(entries) {
        Some(place) => Some(DeltaFault::BadDelta(place)),
        None => None,
    }
}

impl Delta {
    /// Makes a delta of entries. O(entries). The first refusal is returned, and the entries are dropped:
    /// - `BadSite` (44): an origin is outside 1 to 1024;
    /// - `BadDelta` (45) with the place, from 1, of the first entry that is out of order: it does not ascend by origin
    ///   and number, it leaves a hole after the entry before it, or it has number 0.
    pub fn of(entries: Vec<Entry>) -> Result<Delta, DeltaFault>
        ensures refused { MatchOption (delta_refusal entries.items) (result ≡ Ok entries.items)
            (λ refusal. result ≡ Err refusal) }
        ensures shape { OnOk result (IsDelta entries.items) }
    {
        match refusal(&entries) {
            Some(refusal) => Err(refusal),
            None => Ok(Delta { entries }),
        }
    }

    // A delta of entries that have its shape.
    pub(crate) fn of_shape(entries: Vec<Entry>) -> Delta
        requires { IsDelta entries.items }
        ensures { result ≡ entries.items }
    {
        Delta { entries }
    }

    /// The entries, ordered by origin and number.
    pub fn entries(&self) -> &[Entry]
        ensures entries { result.now ≡ self.now }
        ensures shape { IsDelta result.now }
    {
        &self.entries
    }

    /// Takes the entries out of the delta.
    pub fn into_entries(self) -> Vec<Entry>
        ensures entries { result.items ≡ self }
        ensures shape { IsDelta result.items }
    {
        self.entries
    }
}
