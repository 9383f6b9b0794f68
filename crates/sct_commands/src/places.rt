//! The arguments of the commands on one site of a group: its place, what is wanted of it, and its files.
ghost use Rattle.std.specs.Prelude.{◌≡◌, codes, map, option_map, IfOk};
ghost use Rattle.clap.specs.Words.{first_of, found_of, rows_of};
ghost use Rattle.sct_delta.specs.Vectors.{count_in};
ghost use Rattle.sct_commands.specs.Places.{deltas_ordered, group_in, have_ordered, number_in_word, number_ordered, place_from, place_ordered, wanted_of};
ghost use Rattle.sct_commands.specs.Request.{cut_ordered, exchange_from, serve_from, IsOrdered};
ghost use Rattle.sct_site.specs.Cores.{is_open};

use crate::fault::ProgramFault;
use crate::request::Request;
use clap::ArgMatches;
use sct_delta::{MOST_SITES, Vector, number_of, read_vector};
use std::alloc::{AllocError, Global};

/// What is wanted of a site.
#[derive(Drop)]
pub enum Wanting {
    /// The messages that it holds.
    Messages,
    /// Its version vector.
    Vector,
    /// The digests of its entries.
    Digests,
    /// The delta of its entries above a version vector.
    Delta(Vector),
}

/// A command on one site of a group.
#[derive(Drop)]
pub struct SiteCommand<'a> {
    /// What is wanted of the site.
    pub wanting: Wanting,
    /// The number of the site, from 1.
    pub site: u16,
    /// How many sites the group has.
    pub sites: u16,
    /// The path of the journal.
    pub journal: &'a str,
    /// The paths of the deltas, in the order given.
    pub deltas: Vec<&'a str>,
}

/// The command that serves a site.
#[derive(Drop)]
pub struct ServeCommand<'a> {
    /// The number of the site, from 1.
    pub site: u16,
    /// How many sites the group has.
    pub sites: u16,
    /// The path of the journal.
    pub journal: &'a str,
}

// The number below 65,536 that a word writes.
fn number_in_word(word: &str) -> Option<u16>
    ensures { result ≡ number_in_word word.now }
{
    u16::try_from(number_of(word.as_bytes())?).ok()
}

// The number that an argument writes.
#[tactic(auto, using(crate::proofs::Values::value_given))]
fn number_given(given: &ArgMatches<'_>, name: &str) -> Option<u16>
    ensures { result ≡ number_ordered name.now (rows_of (found_of given.now)) }
{
    let word = given.get_str(name)?;
    number_in_word(word)
}

// Whether a group can have this many sites, and the site is one of them.
fn is_place(site: u16, sites: u16) -> bool
    ensures { result ≡ is_open site sites }
{
    0 < site && site <= sites && sites <= MOST_SITES
}

// The site and the number of sites, if there is such a site.
fn place_of(site: u16, sites: u16) -> Option<(u16, u16)>
    ensures { result ≡ place_from site sites }
{
    if is_place(site, sites) {
        Some((site, sites))
    } else {
        None
    }
}

/// The first site of a group with as many sites as a word writes, or none if a group cannot have so many.
pub fn group_of(word: &str) -> Option<(u16, u16)>
    ensures { result ≡ group_in word.now }
{
    place_of(1, number_in_word(word)?)
}

/// The number of the site and the number of sites, or none if there is no such site.
pub fn place_given(given: &ArgMatches<'_>) -> Option<(u16, u16)>
    ensures { result ≡ place_ordered (rows_of (found_of given.now)) }
{
    let site = number_given(given, "SITE")?;
    let sites = number_given(given, "SITES")?;
    place_of(site, sites)
}

// The paths of the deltas. There may be none. Error: out of memory.
#[tactic(auto, using(crate::proofs::Values::values_given))]
fn deltas_given<'a>(alloc: Global, given: &ArgMatches<'a>) -> Result<Vec<&'a str>, AllocError>
    ensures { IfOk result (λ paths. map (λ path. path.now) paths.items
        ≡ deltas_ordered (rows_of (found_of given.now))) }
{
    match given.get_strs("DELTA") {
        Some(paths) => paths.to_vec(alloc),
        None => Ok(Vec::new(alloc)),
    }
}

// The path of the journal.
#[tactic(auto, using(crate::proofs::Values::value_given))]
fn journal_given<'a>(given: &ArgMatches<'a>) -> Option<&'a str>
    ensures { option_map (λ path. path.now) result ≡ first_of (codes "JOURNAL") (rows_of (found_of given.now)) }
{
    given.get_str("JOURNAL")
}

/// The request of a command on one site, from its arguments. Errors: `Usage` (64) if the group cannot have this number
/// of sites or does not have the site; `Memory` (65).
pub fn request_on_site<'a>(
    alloc: Global,
    wanting: Wanting,
    given: &ArgMatches<'a>,
) -> Result<Request<'a>, ProgramFault>
    ensures { IsOrdered (exchange_from (wanted_of wanting) (rows_of (found_of given.now))) result }
{
    let Some((site, sites)) = place_given(given) else {
        return Err(ProgramFault::Usage);
    };
    let Some(journal) = journal_given(given) else {
        return Err(ProgramFault::Usage);
    };
    let deltas = deltas_given(alloc, given)?;
    Ok(Request::Exchange(SiteCommand {
        wanting,
        site,
        sites,
        journal,
        deltas,
    }))
}

// The version vector that an argument writes. None if the argument does not write one. Error: out of memory.
#[tactic(auto, using(crate::proofs::Values::value_given))]
fn have_given(alloc: Global, given: &ArgMatches<'_>) -> Result<Option<Vector>, AllocError>
    ensures { IfOk result (λ vector. option_map count_in vector ≡ have_ordered (rows_of (found_of given.now))) }
{
    match given.get_str("HAVE") {
        Some(text) => read_vector(alloc, text.as_bytes()),
        None => Ok(None),
    }
}

/// The request of `cut` from its arguments. Errors: `Usage` (64) if HAVE does not write a version vector, or there is no
/// such site; `Memory` (65).
pub fn request_of_cut<'a>(
    alloc: Global,
    given: &ArgMatches<'a>,
) -> Result<Request<'a>, ProgramFault>
    ensures { IsOrdered (cut_ordered (rows_of (found_of given.now))) result }
{
    match have_given(alloc, given)? {
        Some(vector) => request_on_site(alloc, Wanting::Delta(vector), given),
        None => Err(ProgramFault::Usage),
    }
}

/// The request of `serve` from its arguments. Error: `Usage` (64) if the group cannot have this number of sites or does not
/// have the site.
pub fn request_to_serve<'a>(given: &ArgMatches<'a>) -> Result<Request<'a>, ProgramFault>
    ensures { IsOrdered (serve_from (rows_of (found_of given.now))) result }
{
    let Some((site, sites)) = place_given(given) else {
        return Err(ProgramFault::Usage);
    };
    let Some(journal) = journal_given(given) else {
        return Err(ProgramFault::Usage);
    };
    Ok(Request::Serve(ServeCommand {
        site,
        sites,
        journal,
    }))
}
