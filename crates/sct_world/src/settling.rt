//! Settles several sites of one group, so that all of them give the same answers.

ghost use Rattle.std.specs.Prelude.{◌≡◌, ◌≢◌, ◌<◌, ℕ, true, false, length, OnOk, OnErr, IfOk, IfErr};
ghost use Rattle.sct_delta.specs.Vectors.{count_in};
ghost use Rattle.sct_delta.specs.declared.fault.DeltaFault.TheVariants as fault;
ghost use Rattle.sct_world.specs.Settling.{core_in, is_beside, are_one_group, AreSitesKept, AreSettled, IsWhy, IsWholeSite, IsWholeOfOne, HasAll, HasEach, OfOneGroup};

use sct_delta::{Delta, DeltaFault, Vector};
use sct_site::SiteCore;
use std::alloc::Global;

// Whether each of the others is of the site's group and has another number.
fn is_beside(core: &SiteCore, others: &[SiteCore]) -> bool
    ensures { result ≡ is_beside core.now others.now }
{
    others.iter().all(|other| other.group() == core.group() && other.number() != core.number())
}

// Whether the sites are of one group and their numbers differ.
fn are_one_group(cores: &[SiteCore]) -> bool
    ensures { result ≡ are_one_group cores.now }
{
    match cores.split_first() {
        Some((core, others)) => is_beside(core, others) && are_one_group(others),
        None => true,
    }
}

// The vector of a site that holds nothing.
fn empty_vector(alloc: Global) -> Result<Vector, DeltaFault>
    ensures counts { IfOk result (λ vector. (origin : ℕ) → count_in vector origin ≡ 0) }
    ensures err { IfErr result (λ refusal. refusal ≡ fault.Memory) }
{
    match Vector::of(alloc, &[]) {
        Ok(vector) => Ok(vector),
        Err(_) => Err(DeltaFault::Memory),
    }
}

// All entries of a site, as a delta.
fn whole_of(core: &SiteCore, empty: &Vector) -> Result<Delta, DeltaFault>
    requires { (origin : ℕ) → count_in empty.now origin ≡ 0 }
    ensures whole { IfOk result (λ delta. IsWholeSite delta core.now) }
    ensures err { IfErr result (λ refusal. refusal ≡ fault.Memory) }
{
    core.cut(empty)
}

// Hands all entries of one of the sites to the site at the place `to`.
fn hand(cores: &mut [SiteCore], whole: &Delta, to: usize) -> Result<(), DeltaFault>
    requires giver { IsWholeOfOne whole.now cores.old }
    requires taker { to < length cores.old }
    requires group { OfOneGroup cores.old }
    ensures kept { OnOk result (AreSitesKept cores.old cores.new) }
    ensures handed { OnOk result (HasEach whole.now (core_in cores.new to)) }
    ensures others { OnOk result ((place : ℕ) → place ≢ to
        → core_in cores.new place ≡ core_in cores.old place) }
    ensures why { IfErr result (λ refusal. IsWhy cores.old refusal) }
    ensures unchanged { OnErr result (cores.new ≡ cores.old) }
{
    cores[to].accept(whole)?;
    Ok(())
}

// Hands all entries of the other sites to the first.
fn gather(cores: &mut [SiteCore], empty: &Vector) -> Result<(), DeltaFault>
    requires group { OfOneGroup cores.old }
    requires empty { (origin : ℕ) → count_in empty.now origin ≡ 0 }
    ensures kept { AreSitesKept cores.old cores.new }
    ensures ok { OnOk result ((place : ℕ) → place < length cores.old
        → HasAll (core_in cores.old place) (core_in cores.new 0)) }
    ensures why { IfErr result (λ refusal. IsWhy cores.old refusal) }
{
    for place in 1..cores.len() {
        let whole = whole_of(&cores[place], empty)?;
        hand(cores, &whole, 0)?;
    }
    Ok(())
}

// Hands all entries of the first site, which were cut, to each of the others.
fn hand_on(cores: &mut [SiteCore], whole: &Delta) -> Result<(), DeltaFault>
    requires some { 0 < length cores.old }
    requires whole { IsWholeSite whole.now (core_in cores.old 0) }
    requires group { OfOneGroup cores.old }
    ensures kept { AreSitesKept cores.old cores.new }
    ensures ok { OnOk result ((place : ℕ) → place < length cores.old
        → HasAll (core_in cores.old 0) (core_in cores.new place)) }
    ensures why { IfErr result (λ refusal. IsWhy cores.old refusal) }
{
    for place in 1..cores.len() {
        hand(cores, whole, place)?;
    }
    Ok(())
}

// Hands all entries of the first site to each of the others. They are cut once.
fn spread(cores: &mut [SiteCore], empty: &Vector) -> Result<(), DeltaFault>
    requires group { OfOneGroup cores.old }
    requires empty { (origin : ℕ) → count_in empty.now origin ≡ 0 }
    ensures kept { AreSitesKept cores.old cores.new }
    ensures ok { OnOk result ((place : ℕ) → place < length cores.old
        → HasAll (core_in cores.old 0) (core_in cores.new place)) }
    ensures why { IfErr result (λ refusal. IsWhy cores.old refusal) }
{
    if cores.is_empty() {
        return Ok(());
    }
    let whole = whole_of(&cores[0], empty)?;
    hand_on(cores, &whole)
}

/// Settles sites of one group: all entries of each are handed to the first, and then all entries of the first to each.
/// Afterwards each site holds what any of them held, and has gained no entry of its own number. Its arrivals begin with
/// those that it had.
///
/// Errors:
/// - `BadSite` (44) if the groups differ or two sites have the same number; nothing has then changed;
/// - `Fork` (42) only if two sites hold different messages under one origin and number;
/// - `OwnAhead` (43) only if a site holds an entry of another site above that site's own count;
/// - `Memory` (40).
///
/// After 42, 43 or 40 each site holds all that it held, and beyond that only entries that another site held.
/// The cost is that of all entries of all sites: each site cuts its entries for the first, which cuts once for the others.
pub fn settle(alloc: Global, cores: &mut [SiteCore]) -> Result<(), DeltaFault>
    ensures ok { OnOk result (AreSettled cores.old cores.new) }
    ensures one_group { OnOk result (are_one_group cores.old ≡ true) }
    ensures kept { AreSitesKept cores.old cores.new }
    ensures apart { IfErr result (λ refusal. are_one_group cores.old ≡ false
        → (refusal ≡ fault.BadSite) × (cores.new ≡ cores.old)) }
    ensures why { IfErr result (λ refusal. are_one_group cores.old ≡ true → IsWhy cores.old refusal) }
{
    if !are_one_group(cores) {
        return Err(DeltaFault::BadSite);
    }
    let empty = empty_vector(alloc)?;
    gather(cores, &empty)?;
    spread(cores, &empty)
}
