//! A version vector: how many entries of each origin are held.

ghost use Rattle.std.specs.BTreeMap.{get, keys};
ghost use Rattle.std.specs.Cmp.{partial_equiv_from_equiv};
ghost use Rattle.std.specs.List.{list_all};
ghost use Rattle.std.specs.Ordering.{nat_cmp};
ghost use Rattle.std.specs.Prelude.{◌≡◌, ◌≢◌, ◌≤◌, ◌↔◌, ℕ, Some, None, true, false, nat_eq, is_some, if◌then◌else◌, IfOk, IfErr, IsOk, IsTrue, OnOk, OnErr};
ghost use Rattle.sct_delta.specs.declared.fault.DeltaFault.TheVariants as fault;
ghost use Rattle.sct_delta.specs.Shapes.{are_origins_sites, first_fall, count_among, vector_refusal};
ghost use Rattle.sct_delta.specs.Vectors.{CountAlike, HasNoZero, HasZeroIfDue, Names, count_in, counted_alike, same_counts};
ghost use Rattle.sct_delta.specs.VectorLaws.{same_counts_equiv};

use crate::fault::DeltaFault;
use crate::sites::is_site;
use std::alloc::{AllocError, Global};
use std::collections::BTreeMap;

/// How many entries of each origin are held. An origin without entries counts 0, whether or not the vector names it.
#[derive(Drop)]
pub struct Vector {
    counts: BTreeMap<u16, u64>,
}

// Whether each origin is the number of a site.
fn are_sites(pairs: &[(u16, u64)]) -> bool
    ensures { result ≡ are_origins_sites pairs.now }
{
    pairs.iter().all(|pair| is_site(pair.0))
}

// The place, from 1, of the first pair whose origin is not above the one before it.
fn first_fall(pairs: &[(u16, u64)]) -> Option<u64>
    ensures { result ≡ first_fall 1 0 pairs.now }
{
    let mut place = 1;
    let mut before = 0;
    for pair in pairs {
        if before >= pair.0 {
            return Some(place);
        }
        place += 1;
        before = pair.0;
    }
    None
}

// Why the pairs do not make a vector, or none if they do.
#[tactic(auto, unfolding(crate::specs::Shapes::vector_refusal))]
fn refusal(pairs: &[(u16, u64)]) -> Option<DeltaFault>
    ensures { result ≡ vector_refusal pairs.now }
{
    if !are_sites(pairs) {
        return Some(DeltaFault::BadSite);
    }
    match first_fall(pairs) {
        Some(place) => Some(DeltaFault::BadDelta(place)),
        None => None,
    }
}

// The vector with the counts of the pairs.
fn counted(alloc: Global, pairs: &[(u16, u64)]) -> Result<Vector, AllocError>
    ensures { IfOk result (λ vector. (origin : ℕ)
        → count_in vector origin ≡ count_among pairs.now origin 0) }
{
    let mut vector = Vector::empty(alloc);
    for pair in pairs {
        vector.set(pair.0, pair.1)?;
    }
    Ok(vector)
}

// Whether both vectors count the same at each origin that the first one names.
fn counted_alike(some: &Vector, other: &Vector) -> bool
    ensures { result ≡ counted_alike some.now other.now }
{
    some.counts
        .keys()
        .all(|origin| some.get(*origin) == other.get(*origin))
}

impl Vector {
    /// The vector of these pairs of an origin and a count, which ascend by origin. O(pairs × log pairs). The first of
    /// these errors is returned:
    /// - `BadSite` (44): an origin is outside 1 to 1024;
    /// - `BadDelta` (45) with the place, from 1, of the first pair whose origin does not ascend;
    /// - `Memory` (40).
    pub fn of(alloc: Global, pairs: &[(u16, u64)]) -> Result<Vector, DeltaFault>
        ensures counts { IfOk result (λ vector. (origin : ℕ)
            → count_in vector origin ≡ count_among pairs.now origin 0) }
        ensures accepted { OnOk result (vector_refusal pairs.now ≡ None) }
        ensures refused { IfErr result (λ refusal. refusal ≢ fault.Memory
            → vector_refusal pairs.now ≡ Some refusal) }
    {
        if let Some(refusal) = refusal(pairs) {
            return Err(refusal);
        }
        Ok(counted(alloc, pairs)?)
    }

    /// How many entries of the origin are held; 0 if the vector does not name it. O(log origins).
    pub fn get(&self, origin: u16) -> u64
        ensures { result ≡ count_in self.now origin }
    {
        match self.counts.get(&origin) {
            Some(count) => *count,
            None => 0,
        }
    }

    /// The counts of the origins that the vector names, ascending by origin. A count may be 0. O(1).
    pub fn counts(&self) -> &BTreeMap<u16, u64>
        ensures { result.now ≡ self.now.counts }
    {
        &self.counts
    }

    // Whether there is a place for the count of the origin.
    pub(crate) fn names(&self, origin: u16) -> bool
        ensures { result ≡ is_some (get nat_cmp self.now.counts origin) }
    {
        self.counts.get(&origin).is_some()
    }

    // A vector of zero counts.
    pub(crate) fn empty(alloc: Global) -> Vector
        ensures counts { (origin : ℕ) → count_in result origin ≡ 0 }
        ensures counted { HasNoZero result }
    {
        Vector {
            counts: BTreeMap::new(alloc),
        }
    }

    // Makes room for the count of the origin.
    pub(crate) fn room(&mut self, origin: u16) -> Result<(), AllocError>
        ensures same { (k : ℕ) → count_in self.new k ≡ count_in self.old k }
        ensures keeps { (k : ℕ) → Names self.old k → Names self.new k }
        ensures ok { OnOk result (Names self.new origin) }
        ensures there { Names self.old origin → IsOk result }
        ensures due { OnOk result ((due : ℕ → ℕ) → 1 ≤ due origin → HasZeroIfDue due self.old
            → HasZeroIfDue due self.new) }
    {
        if self.names(origin) {
            return Ok(());
        }
        self.counts.insert(origin, 0)?;
        Ok(())
    }

    // Sets the count of the origin.
    pub(crate) fn set(&mut self, origin: u16, count: u64) -> Result<(), AllocError>
        ensures ok { OnOk result ((k : ℕ) → count_in self.new k
            ≡ (if nat_eq origin k then count else count_in self.old k)) }
        ensures err { OnErr result ((k : ℕ) → count_in self.new k ≡ count_in self.old k) }
    {
        self.counts.insert(origin, count)?;
        Ok(())
    }

    // Sets the count of an origin that has room for it. It does not allocate.
    pub(crate) fn set_reserved(&mut self, origin: u16, count: u64)
        requires { Names self.old origin }
        ensures set { (k : ℕ) → count_in self.new k
            ≡ (if nat_eq origin k then count else count_in self.old k) }
        ensures keeps { (k : ℕ) → Names self.old k → Names self.new k }
        ensures due { (due later : ℕ → ℕ) → 1 ≤ count → HasZeroIfDue due self.old
            → ((k : ℕ) → nat_eq origin k ≡ false → due k ≤ later k) → HasZeroIfDue later self.new }
    {
        if let Some(kept) = self.counts.get_mut(&origin) {
            *kept = count;
        }
    }

    // Drops the counts of 0.
    pub(crate) fn drop_zeros(&mut self)
        ensures same { (k : ℕ) → count_in self.new k ≡ count_in self.old k }
        ensures counted { HasNoZero self.new }
    {
        self.counts.retain(|_, count| *count > 0);
    }
}

/// Vectors are equal exactly if they count the same at each origin.
pub fn vectors_are_equal_by_their_counts()
    ensures { (some other : Vector) → (same_counts some other ≡ true) ↔ CountAlike some other }
{}

impl PartialEq for Vector {
    ghost eq = { same_counts };

    ghost laws = { partial_equiv_from_equiv same_counts_equiv };

    #[tactic(auto, unfolding(crate::specs::Vectors::same_counts))]
    fn eq(&self, other: &Self) -> bool {
        counted_alike(self, other) && counted_alike(other, self)
    }
}

impl Eq for Vector {
    ghost laws = { same_counts_equiv };
}
