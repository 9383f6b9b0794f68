//! The words that a command does not take: which of them is wrong, and the line that says so.
ghost use Rattle.std.specs.Prelude.{◌≡◌, IfOk, option_map, string_bytes};
ghost use Rattle.clap.specs.Words.{found_of, rows_of};
ghost use Rattle.sct_commands.specs.Mistakes.{argument_name, expected_word, for_argument, mistake_line, mistake_text, wrong_bank, wrong_day, wrong_file, wrong_have, wrong_of_day, wrong_of_place, wrong_site, wrong_sites, wrong_word};

use crate::places::{group_of, place_given};
use crate::request::files_of;
use crate::runs::MOST_SITES;
use clap::ArgMatches;
use sct_delta::read_vector;
use sct_element::{read_bic, read_day};
use std::alloc::{AllocError, Global};

/// An argument of a command.
#[derive(Clone, Copy, Debug, PartialEq, Eq)]
pub enum Argument {
    Bank,
    Day,
    Sites,
    Site,
    Have,
    File,
}

impl Argument {
    // The name of the argument in the usage of its command.
    fn name(self) -> &'static str
        ensures { result.now ≡ argument_name self }
    {
        match self {
            Argument::Bank => "BANK",
            Argument::Day => "DAY",
            Argument::Sites => "SITES",
            Argument::Site => "SITE",
            Argument::Have => "HAVE",
            Argument::File => "FILE",
        }
    }

    // What a word for the argument has to be.
    fn expected(self) -> &'static str
        ensures { result.now ≡ expected_word self }
    {
        match self {
            Argument::Bank => "a BIC of 8 or 11 characters, in capital letters",
            Argument::Day => "a day, written as 2024-05-02",
            Argument::Sites => "a number from 1 to 1024",
            Argument::Site => "a number from 1 to SITES",
            Argument::Have => "a version vector, as 1:3,2:5, or - for a site without entries",
            Argument::File => "at most 16 files",
        }
    }
}

/// A word that is not valid for its argument.
#[derive(Clone, Copy, Debug)]
pub struct WrongWord<'a> {
    pub argument: Argument,
    pub word: &'a str,
}

// The line that says that a word is not what is expected for an argument of this name. Error: out of memory.
fn line_of(alloc: Global, word: &str, name: &str, expected: &str) -> Result<String, AllocError>
    ensures { IfOk result (λ line. string_bytes line ≡ mistake_text word.now name.now expected.now) }
{
    let mut line = String::from_str(alloc, "error: invalid value '")?;
    line.push_str(word)?;
    line.push_str("' for '<")?;
    line.push_str(name)?;
    line.push_str(">': expected ")?;
    line.push_str(expected)?;
    line.push('\n')?;
    Ok(line)
}

impl<'a> WrongWord<'a> {
    /// The line that says which word is wrong, and what is expected. Error: out of memory.
    pub fn line(&self, alloc: Global) -> Result<String, AllocError>
        ensures { IfOk result (λ line. string_bytes line ≡ mistake_line (self.now.argument, self.now.word.now)) }
    {
        let name = self.argument.name();
        let expected = self.argument.expected();
        line_of(alloc, self.word, name, expected)
    }
}

// The wrong word of an argument, if there is one.
fn for_argument<'a>(argument: Argument, found: Option<&'a str>) -> Option<WrongWord<'a>>
    ensures { option_map (λ wrong. (wrong.argument, wrong.word.now)) result
        ≡ for_argument argument (option_map (λ w. w.now) found.entry) }
{
    let word = found?;
    Some(WrongWord { argument, word })
}

// The word for BANK, if it is not a BIC.
#[tactic(auto, using(crate::proofs::Values::value_given))]
fn wrong_bank<'a>(given: &ArgMatches<'a>) -> Option<&'a str>
    ensures { option_map (λ word. word.now) result ≡ wrong_bank (rows_of (found_of given.now)) }
{
    let word = given.get_str("BANK")?;
    match read_bic(word) {
        Ok(_) => None,
        Err(_) => Some(word),
    }
}

// The word for DAY, if it is not a valid day.
#[tactic(auto, using(crate::proofs::Values::value_given))]
fn wrong_day<'a>(given: &ArgMatches<'a>) -> Option<&'a str>
    ensures { option_map (λ word. word.now) result ≡ wrong_day (rows_of (found_of given.now)) }
{
    let word = given.get_str("DAY")?;
    match read_day(word) {
        Ok(_) => None,
        Err(_) => Some(word),
    }
}

// The word for SITES, if no group has so many sites.
#[tactic(auto, using(crate::proofs::Values::value_given))]
fn wrong_sites<'a>(given: &ArgMatches<'a>) -> Option<&'a str>
    ensures { option_map (λ word. word.now) result ≡ wrong_sites (rows_of (found_of given.now)) }
{
    let word = given.get_str("SITES")?;
    match group_of(word) {
        Some(_) => None,
        None => Some(word),
    }
}

// The word for SITE, if the group has no such site.
#[tactic(auto, using(crate::proofs::Values::value_given))]
fn wrong_site<'a>(given: &ArgMatches<'a>) -> Option<&'a str>
    ensures { option_map (λ word. word.now) result ≡ wrong_site (rows_of (found_of given.now)) }
{
    let word = given.get_str("SITE")?;
    match place_given(given) {
        Some(_) => None,
        None => Some(word),
    }
}

// The word for HAVE, if it is not a version vector. Error: out of memory.
#[tactic(auto, using(crate::proofs::Values::value_given))]
fn wrong_have<'a>(alloc: Global, given: &ArgMatches<'a>) -> Result<Option<&'a str>, AllocError>
    ensures { IfOk result (λ found. option_map (λ word. word.now) found ≡ wrong_have (rows_of (found_of given.now))) }
{
    let Some(word) = given.get_str("HAVE") else {
        return Ok(None);
    };
    match read_vector(alloc, word.as_bytes())? {
        Some(_) => Ok(None),
        None => Ok(Some(word)),
    }
}

// The first of the files that are too many.
#[tactic(auto, using(crate::proofs::Values::text_at))]
fn wrong_file<'a>(given: &ArgMatches<'a>) -> Option<&'a str>
    ensures { option_map (λ word. word.now) result ≡ wrong_file (rows_of (found_of given.now)) }
{
    let files = files_of(given)?;
    files.get(MOST_SITES).copied()
}

// The first wrong word of a bank and a day.
fn wrong_of_day<'a>(given: &ArgMatches<'a>) -> Option<WrongWord<'a>>
    ensures { option_map (λ wrong. (wrong.argument, wrong.word.now)) result ≡ wrong_of_day (rows_of (found_of given.now)) }
{
    for_argument(Argument::Bank, wrong_bank(given)).or(for_argument(
        Argument::Day,
        wrong_day(given),
    ))
}

// The first wrong word of a place: the number of sites, or the number of the site.
fn wrong_of_place<'a>(given: &ArgMatches<'a>) -> Option<WrongWord<'a>>
    ensures { option_map (λ wrong. (wrong.argument, wrong.word.now)) result ≡ wrong_of_place (rows_of (found_of given.now)) }
{
    for_argument(Argument::Sites, wrong_sites(given)).or(for_argument(
        Argument::Site,
        wrong_site(given),
    ))
}

/// The first wrong word of the arguments of a command, if there is one. Error: out of memory.
pub fn wrong_word<'a>(
    alloc: Global,
    given: &ArgMatches<'a>,
) -> Result<Option<WrongWord<'a>>, AllocError>
    ensures { IfOk result (λ found. option_map (λ wrong. (wrong.argument, wrong.word.now)) found
        ≡ wrong_word (rows_of (found_of given.now))) }
{
    let have = for_argument(Argument::Have, wrong_have(alloc, given)?);
    let files = for_argument(Argument::File, wrong_file(given));
    Ok(
        wrong_of_day(given)
            .or(wrong_of_place(given))
            .or(have)
            .or(files),
    )
}
