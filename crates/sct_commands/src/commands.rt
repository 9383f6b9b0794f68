//! The command line, as clap sees it.
ghost use Rattle.std.specs.Prelude.{◌≡◌, IfOk, false, string_bytes};
ghost use Rattle.clap.specs.Words.{app_of};
ghost use Rattle.clap.specs.declared.builder.command.Command.TheViews.{out-Command};
ghost use Rattle.sct_commands.specs.CommandLine.{closing_commands, command_line, comparing_commands, cut_command, day_command, digests_command, exchanging_commands, files_of_a_site, holding_commands, listing_commands, listless_report_command, place_command, report_command, run_command, running_commands, serve_command, site_command, vector_command, version_line};

use clap::{Arg, ArgAction, Command};
use sct_version::VERSION;
use std::alloc::{AllocError, Global};

// The end of the help: the arguments of the commands, and the exit statuses.
const END_OF_HELP: &str = "Arguments of the commands:
  BANK     The BIC of the bank, of 8 or 11 characters
  DAY      The settlement day of a list, or the day before which transfers are done, as 2024-05-02
  LIST     The path of the bank's list
  FILE     The path of a file of messages. There are 1 to 16 of them
  SITE     The number of the site, from 1 to SITES
  SITES    The number of sites of the group, from 1 to 1024
  HAVE     The version vector of the site that the delta is for, as 1:3,2:5, or - for a site without entries
  JOURNAL  The path of the site's journal
  DELTA    The path of a delta. There may be none

Exit status:
  0  Every line was taken, serve came to the end of its requests, or a help or the version was printed
  1  Some line or file was refused
  2  A fault ended the run
  3  The program was out of memory

The page docs/users/codes.md and the man page sct_sites(1) explain the numbers on standard error.";

// What the help of a command says of its arguments.
const BANK: &str = "The BIC of the bank, of 8 or 11 characters";

const DAY: &str = "The settlement day of the list, as 2024-05-02";

const DAY_BEFORE: &str = "The day before which transfers are done, as 2024-05-02";

const LIST: &str = "The path of the bank's list";

const FILE: &str = "The path of a file of messages. There are 1 to 16 of them";

const SITE: &str = "The number of the site, from 1 to SITES";

const SITES: &str = "The number of sites of the group, from 1 to 1024";

const HAVE: &str =
    "The version vector of the site that the delta is for, as 1:3,2:5, or - for a site without entries";

const JOURNAL: &str = "The path of the site's journal";

const DELTA: &str = "The path of a delta. There may be none";

/// The line that `--version` prints. Error: out of memory.
pub fn version_line(alloc: Global) -> Result<String, AllocError>
    ensures { IfOk result (λ line. string_bytes line ≡ version_line) }
{
    format!(in alloc; "sct_sites {VERSION}\n")
}

// The program with the commands `status` and `archive`.
fn listing_commands<'a>(alloc: Global) -> Result<Command<'a>, AllocError>
    ensures { IfOk result (λ c. app_of c ≡ listing_commands) }
{
    let status = Command::new(alloc, "status").about(
        "Writes the status of each transfer in the messages on standard input",
    );
    let archive = Command::new(alloc, "archive").about(
        "Writes the messages on standard input, each once, by sender, kind and identification",
    );
    Command::new(alloc, "sct_sites")
        .about("Answers on the SEPA Instant messages of a clearing hub")
        .after_help(END_OF_HELP)
        .version(VERSION)
        .subcommand_required(true)
        .subcommand(status)?
        .subcommand(archive)
}

// A command with a day.
fn day_command<'a>(alloc: Global, name: &'a str, about: &'a str) -> Result<Command<'a>, AllocError>
    ensures app { IfOk result (λ c. app_of c ≡ day_command name.now) }
    ensures own { IfOk result (λ c. (out-Command c).has_globals ≡ false) }
{
    let day = Arg::new(alloc, "DAY").required(true).help(DAY_BEFORE);
    Command::new(alloc, name).about(about).arg(day)
}

// The program with the commands `keep` and `closed` added.
fn closing_commands<'a>(alloc: Global) -> Result<Command<'a>, AllocError>
    ensures { IfOk result (λ c. app_of c ≡ closing_commands) }
{
    let keep = day_command(
        alloc,
        "keep",
        "Writes the messages on standard input that have a tie to a transfer that is not done before a day",
    )?;
    let closed = day_command(
        alloc,
        "closed",
        "Writes the messages on standard input that have no tie to a transfer that is not done before a day",
    )?;
    listing_commands(alloc)?
        .subcommand(keep)?
        .subcommand(closed)
}

// The command `report BANK DAY`: its list comes behind.
fn listless_report_command<'a>(alloc: Global) -> Result<Command<'a>, AllocError>
    ensures app { IfOk result (λ c. app_of c ≡ listless_report_command) }
    ensures own { IfOk result (λ c. (out-Command c).has_globals ≡ false) }
{
    let bank = Arg::new(alloc, "BANK").required(true).help(BANK);
    let day = Arg::new(alloc, "DAY").required(true).help(DAY);
    Command::new(alloc, "report")
        .about("Compares a bank's list for a settlement day with the messages on standard input")
        .arg(bank)?
        .arg(day)
}

// The command `report BANK DAY LIST`.
fn report_command<'a>(alloc: Global) -> Result<Command<'a>, AllocError>
    ensures app { IfOk result (λ c. app_of c ≡ report_command) }
    ensures own { IfOk result (λ c. (out-Command c).has_globals ≡ false) }
{
    let list = Arg::new(alloc, "LIST").required(true).help(LIST);
    listless_report_command(alloc)?.arg(list)
}

// The command `run FILE..`.
fn run_command<'a>(alloc: Global) -> Result<Command<'a>, AllocError>
    ensures app { IfOk result (λ c. app_of c ≡ run_command) }
    ensures own { IfOk result (λ c. (out-Command c).has_globals ≡ false) }
{
    let file = Arg::new(alloc, "FILE")
        .required(true)
        .action(ArgAction::Append)
        .help(FILE);
    Command::new(alloc, "run")
        .about(
            "Brings sites to one answer, each filled from a file, and writes the status of each transfer",
        )
        .arg(file)
}

// The program with the commands `totals` and `report` added.
fn comparing_commands<'a>(alloc: Global) -> Result<Command<'a>, AllocError>
    ensures { IfOk result (λ c. app_of c ≡ comparing_commands) }
{
    let totals = Command::new(alloc, "totals").about(
        "Writes what each bank sent and received by the messages on standard input",
    );
    let report = report_command(alloc)?;
    closing_commands(alloc)?
        .subcommand(totals)?
        .subcommand(report)
}

// The program with the commands that read standard input, and `run`.
fn running_commands<'a>(alloc: Global) -> Result<Command<'a>, AllocError>
    ensures { IfOk result (λ c. app_of c ≡ running_commands) }
{
    let replay = Command::new(alloc, "replay").about(
        "Writes how the events of the script on standard input end, and what each site then holds",
    );
    let run = run_command(alloc)?;
    comparing_commands(alloc)?
        .subcommand(replay)?
        .subcommand(run)
}

// A command that begins with the number of a site and the number of sites.
fn place_command<'a>(
    alloc: Global,
    name: &'a str,
    about: &'a str,
) -> Result<Command<'a>, AllocError>
    ensures app { IfOk result (λ c. app_of c ≡ place_command name.now) }
    ensures own { IfOk result (λ c. (out-Command c).has_globals ≡ false) }
{
    let site = Arg::new(alloc, "SITE").required(true).help(SITE);
    let sites = Arg::new(alloc, "SITES").required(true).help(SITES);
    Command::new(alloc, name).about(about).arg(site)?.arg(sites)
}

// A command with the files of a site added: its journal, and any number of deltas.
fn with_files_of_a_site<'a>(alloc: Global, command: Command<'a>) -> Result<Command<'a>, AllocError>
    ensures app { IfOk result (λ c. app_of c ≡ files_of_a_site (app_of command.entry)) }
    ensures own { (out-Command command.entry).has_globals ≡ false
        → IfOk result (λ c. (out-Command c).has_globals ≡ false) }
{
    let journal = Arg::new(alloc, "JOURNAL").required(true).help(JOURNAL);
    let delta = Arg::new(alloc, "DELTA")
        .action(ArgAction::Append)
        .help(DELTA);
    command.arg(journal)?.arg(delta)
}

// The command `site SITE SITES JOURNAL [DELTA]..`.
fn site_command<'a>(alloc: Global) -> Result<Command<'a>, AllocError>
    ensures app { IfOk result (λ c. app_of c ≡ site_command) }
    ensures own { IfOk result (λ c. (out-Command c).has_globals ≡ false) }
{
    let place = place_command(
        alloc,
        "site",
        "Writes the messages that a site holds, of its journal and of the deltas that it was sent",
    )?;
    with_files_of_a_site(alloc, place)
}

// The command `vector SITE SITES JOURNAL [DELTA]..`.
fn vector_command<'a>(alloc: Global) -> Result<Command<'a>, AllocError>
    ensures app { IfOk result (λ c. app_of c ≡ vector_command) }
    ensures own { IfOk result (λ c. (out-Command c).has_globals ≡ false) }
{
    let place = place_command(
        alloc,
        "vector",
        "Writes how many entries of each site a site holds, of its journal and of the deltas that it was sent",
    )?;
    with_files_of_a_site(alloc, place)
}

// The command `digests SITE SITES JOURNAL [DELTA]..`.
fn digests_command<'a>(alloc: Global) -> Result<Command<'a>, AllocError>
    ensures app { IfOk result (λ c. app_of c ≡ digests_command) }
    ensures own { IfOk result (λ c. (out-Command c).has_globals ≡ false) }
{
    let place = place_command(
        alloc,
        "digests",
        "Writes the digest of the entries of each site that a site holds, of its journal and of the deltas that it was sent",
    )?;
    with_files_of_a_site(alloc, place)
}

// The command `cut SITE SITES HAVE JOURNAL [DELTA]..`.
fn cut_command<'a>(alloc: Global) -> Result<Command<'a>, AllocError>
    ensures app { IfOk result (λ c. app_of c ≡ cut_command) }
    ensures own { IfOk result (λ c. (out-Command c).has_globals ≡ false) }
{
    let have = Arg::new(alloc, "HAVE").required(true).help(HAVE);
    let place = place_command(
        alloc,
        "cut",
        "Writes a delta of the entries that a site holds above the vector HAVE",
    )?;
    with_files_of_a_site(alloc, place.arg(have)?)
}

// The program with the commands `site` and `vector` added.
fn holding_commands<'a>(alloc: Global) -> Result<Command<'a>, AllocError>
    ensures { IfOk result (λ c. app_of c ≡ holding_commands) }
{
    let site = site_command(alloc)?;
    let vector = vector_command(alloc)?;
    running_commands(alloc)?
        .subcommand(site)?
        .subcommand(vector)
}

// The program with the commands `digests` and `cut` added.
fn exchanging_commands<'a>(alloc: Global) -> Result<Command<'a>, AllocError>
    ensures { IfOk result (λ c. app_of c ≡ exchanging_commands) }
{
    let digests = digests_command(alloc)?;
    let cut = cut_command(alloc)?;
    holding_commands(alloc)?
        .subcommand(digests)?
        .subcommand(cut)
}

// The command `serve SITE SITES JOURNAL`.
fn serve_command<'a>(alloc: Global) -> Result<Command<'a>, AllocError>
    ensures app { IfOk result (λ c. app_of c ≡ serve_command) }
    ensures own { IfOk result (λ c. (out-Command c).has_globals ≡ false) }
{
    let journal = Arg::new(alloc, "JOURNAL").required(true).help(JOURNAL);
    let place = place_command(
        alloc,
        "serve",
        "Replies to the requests on standard input, as a site that keeps its journal on the disk",
    )?;
    place.arg(journal)
}

/// The program's command line. The error is that it is out of memory.
pub fn command<'a>(alloc: Global) -> Result<Command<'a>, AllocError>
    ensures { IfOk result (λ c. app_of c ≡ command_line) }
{
    let serve = serve_command(alloc)?;
    exchanging_commands(alloc)?.subcommand(serve)
}
