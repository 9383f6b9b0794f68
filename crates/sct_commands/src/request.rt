//! The command line: its words, and the request that they make.
ghost use Rattle.std.specs.Prelude.{◌≡◌, ◌≢◌, ◌↔◌, codes, map, Err, IfErr, IfOk, OnOk, IsTrue, option_and_then, option_map, string_bytes};
ghost use Rattle.sct_commands.specs.declared.fault.ProgramFault.TheVariants as fault;
ghost use Rattle.sct_commands.specs.Ending.{EndsAsking, words_fault};
ghost use Rattle.std.specs.IoError.{error_kind};
ghost use Rattle.clap.specs.Words.{all_of, found_of, rows_of, subcommand_rows_of};
ghost use Rattle.clap.specs.Values.{kind_of};
ghost use Rattle.sct_commands.specs.CommandLine.{AnswersKind, AreAsking, CommandsAskForTheirOrders, MistakesNameTheirWords, OptionsAskForTheirTexts};
ghost use Rattle.clap.specs.declared.error.kind.ErrorKind.TheVariants as kind;
ghost use Rattle.sct_commands.specs.Mistakes.{wrong_word};
ghost use Rattle.sct_commands.specs.Request.{day_ordered, job_named, is_mistake, order_named, report_ordered, report_with, sites_from, AsksForNoOrder, IsMistaken, IsOrdered, IsOrderedOrMistaken};

use crate::commands::{command, version_line};
use crate::fault::ProgramFault;
use crate::jobs::Job;
use crate::mistakes::wrong_word;
use crate::places::{
    ServeCommand, SiteCommand, Wanting, request_of_cut, request_on_site, request_to_serve,
};
use crate::runs::are_sites;
use clap::error::ErrorKind;
use clap::{ArgMatches, Error};
use sct_element::{Bic, Day, read_bic, read_day};
use std::alloc::Global;
use std::env::Args;
use std::io;

/// The arguments of `report`.
#[derive(Drop)]
pub struct Reconciliation<'a> {
    /// The bank whose list it is.
    pub bank: Bic,
    /// The settlement day of the list.
    pub day: Day,
    /// The path of the file with the list.
    pub list: &'a str,
}

/// The request of a command line.
#[derive(Drop)]
pub enum Request<'a> {
    /// Run the job on standard input.
    Run(Job),
    /// Compare standard input with a bank's list for a settlement day.
    Reconcile(Reconciliation<'a>),
    /// Settle sites, each filled from a file of its own. There are 1 to 16 paths.
    Settle(Vec<&'a str>),
    /// Make a site of its journal and deltas, and write what is wanted of it.
    Exchange(SiteCommand<'a>),
    /// Serve a site whose journal is a file: reply to the requests on standard input.
    Serve(ServeCommand<'a>),
    /// Show this help, or this line with the version.
    Help(String),
    /// A mistake in the command line: the text says why.
    Mistake(String),
}

// The fault if the words of the command line could not be read.
fn fault_of(error: &io::Error) -> ProgramFault
    ensures { result ≡ words_fault (error_kind error.now) }
{
    match error.kind() {
        io::ErrorKind::OutOfMemory => ProgramFault::Memory,
        _ => ProgramFault::Usage,
    }
}

/// The words of a command line, as the environment gives them. Errors: `Usage` (64) if the environment does not give
/// them, for example if a word is not UTF-8; `Memory` (65).
pub fn read_words(alloc: Global, words: io::Result<Args>) -> Result<Vec<String>, ProgramFault>
    ensures memory { OnOk words (IfErr result (λ e. e ≡ fault.Memory)) }
    ensures unread { IfErr words (λ e. result ≡ Err (words_fault (error_kind e))) }
{
    match words {
        Ok(words) => Ok(words.collect(alloc)?),
        Err(error) => Err(fault_of(&error)),
    }
}

// The request if clap reports an error in place of matches: help, the version, or a mistake.
fn request_of_error<'a>(alloc: Global, error: &Error) -> Result<Request<'a>, ProgramFault>
    ensures no_order { IfOk result AsksForNoOrder }
    ensures mistake { IfOk result (λ r. IsTrue (is_mistake r)
        ↔ ((kind_of error.now ≢ kind.DisplayHelp) × (kind_of error.now ≢ kind.DisplayVersion))) }
    ensures kind { IfOk result (λ r. AnswersKind r (kind_of error.now)
        × (kind_of error.now ≢ kind.OutOfMemory)) }
    ensures memory { IfErr result (λ e. e ≡ fault.Memory) }
{
    if error.kind() == ErrorKind::OutOfMemory {
        return Err(ProgramFault::Memory);
    }
    if error.kind() == ErrorKind::DisplayVersion {
        return Ok(Request::Help(version_line(alloc)?));
    }
    let text = format!(in alloc; "{error}")?;
    if error.use_stderr() {
        Ok(Request::Mistake(text))
    } else {
        Ok(Request::Help(text))
    }
}

// The job of a command's name.
fn job_named(name: &str) -> Option<Job>
    ensures { result ≡ job_named name.now }
{
    match name {
        "status" => Some(Job::Status),
        "archive" => Some(Job::Archive),
        "totals" => Some(Job::Totals),
        "replay" => Some(Job::Replay),
        _ => None,
    }
}

// The day in the arguments of a command, or none if it is not valid.
#[tactic(auto, using(crate::proofs::Values::value_given))]
fn day_of<'a>(given: &ArgMatches<'a>) -> Option<Day>
    ensures { result ≡ day_ordered (rows_of (found_of given.now)) }
{
    read_day(given.get_str("DAY")?).ok()
}

// The request of `report`, or none if the bank or the day is not valid.
#[tactic(auto, using(crate::proofs::Values::value_given))]
fn report_of<'a>(given: &ArgMatches<'a>) -> Option<Reconciliation<'a>>
    ensures { option_map report_with result ≡ report_ordered (rows_of (found_of given.now)) }
{
    let bank = read_bic(given.get_str("BANK")?).ok()?;
    let day = read_day(given.get_str("DAY")?).ok()?;
    let list = given.get_str("LIST")?;
    Some(Reconciliation { bank, day, list })
}

// The request of `run` with these files. Error: `Usage` (64) if there are more than 16.
fn sites_of<'a>(alloc: Global, files: &[&'a str]) -> Result<Request<'a>, ProgramFault>
    ensures { IsOrdered (sites_from (map (λ path. path.now) files.now)) result }
{
    if !are_sites(files.len()) {
        return Err(ProgramFault::Usage);
    }
    Ok(Request::Settle(files.to_vec(alloc)?))
}

/// The files in the arguments of `run`.
#[tactic(auto, using(crate::proofs::Values::values_given))]
pub fn files_of<'b, 'a>(given: &'b ArgMatches<'a>) -> Option<&'b [&'a str]>
    ensures { option_map (λ files. map (λ path. path.now) files.now) result
        ≡ all_of (codes "FILE") (rows_of (found_of given.now)) }
{
    given.get_strs("FILE")
}

// The request of a command with its arguments.
fn request_of_command<'a>(
    alloc: Global,
    name: &str,
    given: &ArgMatches<'a>,
) -> Result<Request<'a>, ProgramFault>
    ensures { IsOrdered (order_named name.now (rows_of (found_of given.now))) result }
{
    match name {
        "report" => match report_of(given) {
            Some(report) => Ok(Request::Reconcile(report)),
            None => Err(ProgramFault::Usage),
        },
        "run" => match files_of(given) {
            Some(files) => sites_of(alloc, files),
            None => Err(ProgramFault::Usage),
        },
        "keep" => match day_of(given) {
            Some(day) => Ok(Request::Run(Job::Keep(day))),
            None => Err(ProgramFault::Usage),
        },
        "closed" => match day_of(given) {
            Some(day) => Ok(Request::Run(Job::Closed(day))),
            None => Err(ProgramFault::Usage),
        },
        "site" => request_on_site(alloc, Wanting::Messages, given),
        "vector" => request_on_site(alloc, Wanting::Vector, given),
        "digests" => request_on_site(alloc, Wanting::Digests, given),
        "cut" => request_of_cut(alloc, given),
        "serve" => request_to_serve(given),
        _ => match job_named(name) {
            Some(job) => Ok(Request::Run(job)),
            None => Err(ProgramFault::Usage),
        },
    }
}

// The mistake of a command that there is no order for: the line about its wrong word. Errors: `Usage` (64) if none of
// its words is wrong; `Memory` (65).
fn request_of_mistake<'a>(
    alloc: Global,
    given: &ArgMatches<'a>,
) -> Result<Request<'a>, ProgramFault>
    ensures { IsMistaken (wrong_word (rows_of (found_of given.now))) result }
{
    match wrong_word(alloc, given)? {
        Some(wrong) => Ok(Request::Mistake(wrong.line(alloc)?)),
        None => Err(ProgramFault::Usage),
    }
}

// What becomes of a command that ended with a fault: the mistake if there is no order for it, and else the fault.
fn request_of_fault<'a>(
    alloc: Global,
    given: &ArgMatches<'a>,
    reason: ProgramFault,
) -> Result<Request<'a>, ProgramFault>
    ensures usage { reason ≡ fault.Usage → IsMistaken (wrong_word (rows_of (found_of given.now))) result }
    ensures other { reason ≢ fault.Usage → result ≡ Err reason }
{
    match reason {
        ProgramFault::Usage => request_of_mistake(alloc, given),
        _ => Err(reason),
    }
}

// The request of a command with its arguments, or the mistake in them.
fn request_or_mistake<'a>(
    alloc: Global,
    name: &str,
    given: &ArgMatches<'a>,
) -> Result<Request<'a>, ProgramFault>
    ensures { IsOrderedOrMistaken (order_named name.now (rows_of (found_of given.now)))
        (wrong_word (rows_of (found_of given.now))) result }
{
    match request_of_command(alloc, name, given) {
        Ok(request) => Ok(request),
        Err(reason) => request_of_fault(alloc, given, reason),
    }
}

// The request of the matches that clap found.
fn request_of_matches<'a>(
    alloc: Global,
    matches: &ArgMatches<'a>,
) -> Result<Request<'a>, ProgramFault>
    ensures { IsOrderedOrMistaken
        (option_and_then (λ found. order_named found.0 found.1) (subcommand_rows_of matches.now))
        (option_and_then (λ found. wrong_word found.1) (subcommand_rows_of matches.now)) result }
{
    match matches.subcommand() {
        Some((name, given)) => request_or_mistake(alloc, name, given),
        None => Err(ProgramFault::Usage),
    }
}

// A law: each of the commands, after any name of the program, asks for its order.
fn commands_ask_for_their_orders()
    ensures { CommandsAskForTheirOrders }
{}

// A law: the options ask for the help and for the version, after any name of the program.
fn options_ask_for_their_texts()
    ensures { OptionsAskForTheirTexts }
{}

// A law: a day that is not valid is named.
fn mistakes_name_their_words()
    ensures { MistakesNameTheirWords }
{}

/// Reads the words of a command line, the first of which is the program's name. Errors: `Usage` (64) if the words ask
/// for nothing that the program does, clap has no text about it and none of them is wrong; `Memory` (65).
pub fn read_request<'a>(alloc: Global, words: &'a [String]) -> Result<Request<'a>, ProgramFault>
    ensures asked { AreAsking (map string_bytes words.now) result }
    ensures faults { IfErr result EndsAsking }
{
    match command(alloc)?.try_get_matches_from(words) {
        Ok(matches) => request_of_matches(alloc, &matches),
        Err(error) => request_of_error(alloc, &error),
    }
}
