//! Sites for programs in other languages. `include/niluppang.h` declares these functions to C, and says what a caller owes.
#![tactic(auto)]

ghost use Rattle.std.specs.Prelude.{◌≡◌, None, false, length};
ghost use Rattle.sct_place.specs.Codes.{code_name, code_text};
ghost use Rattle.sct_place.specs.Outcomes.{refused_accept, refused_as, refused_lines, refused_take};
ghost use Rattle.sct_place.specs.Places.{Accepts, Asks, Copies, CopiesPart, CopiesReason, Counts, EndsAnswer, Evaluates, IsCalled, IsCopied, MakesSnapshot, Opens, Restores, Takes, TakesAs, TakesLines};
ghost use Rattle.sct_embed.specs.declared.question.Question.TheVariants as question;
ghost use Rattle.sct_version.specs.Numbers.{version_number};
ghost use Rattle.sct_version.specs.declared.TheConstants.{VERSION};

use sct_embed::Question;
use sct_place::{
    AcceptOutcome, CallOutcome, LinesOutcome, Place, TakeOutcome, copy_code_name, copy_code_text,
};
use sct_version::version_number;
use std::alloc::Global;

/// Opens the site `number` of a group of `group` sites in an empty place.
#[unsafe(no_mangle)]
pub extern "C" fn sct_raw_open(
    alloc: Global,
    site: &mut Place,
    number: u16,
    group: u16,
) -> CallOutcome
    ensures { Opens number group site.old.handle.held result site.new.handle.held }
{
    site.open(alloc, number, group)
}

/// Opens a site that was there before, in an empty place, from its journal and a delta text.
#[unsafe(no_mangle)]
pub extern "C" fn sct_raw_restore(
    alloc: Global,
    site: &mut Place,
    number: u16,
    group: u16,
    journal: &[u8],
    delta: &[u8],
) -> CallOutcome
    ensures { Restores number group journal.now delta.now site.old.handle.held result site.new.handle.held }
{
    site.restore(alloc, number, group, journal, delta)
}

/// Makes a snapshot of the site of a place in another place, which is empty.
#[unsafe(no_mangle)]
pub extern "C" fn sct_raw_snapshot(
    alloc: Global,
    site: &mut Place,
    snapshot: &mut Place,
) -> CallOutcome
    ensures { MakesSnapshot site.old.handle.held snapshot.old.handle.held result site.new.handle.held snapshot.new.handle.held }
{
    site.snapshot(alloc, snapshot)
}

/// Ends the site of a place, if there is one, and frees its memory.
#[unsafe(no_mangle)]
pub extern "C" fn sct_raw_close(alloc: Global, site: &mut Place)
    ensures { site.new.handle.held ≡ None }
{
    site.close(alloc);
}

/// Takes the message that one JSON object is.
#[unsafe(no_mangle)]
pub extern "C" fn sct_raw_take(alloc: Global, site: &mut Place, json: &[u8]) -> TakeOutcome
    ensures { IsCalled refused_take (Takes json.now) site.old.handle.held result site.new.handle.held }
{
    site.take(alloc, json)
}

/// Takes the message that one JSON object is, if it may be sent in the name of the banks that a text lists.
#[unsafe(no_mangle)]
pub extern "C" fn sct_raw_take_as(
    alloc: Global,
    site: &mut Place,
    banks: &[u8],
    json: &[u8],
) -> TakeOutcome
    ensures { IsCalled refused_take (TakesAs banks.now json.now) site.old.handle.held result site.new.handle.held }
{
    site.take_as(alloc, banks, json)
}

/// Takes the messages of a text, one on each line.
#[unsafe(no_mangle)]
pub extern "C" fn sct_raw_take_lines(alloc: Global, site: &mut Place, text: &[u8]) -> LinesOutcome
    ensures { IsCalled refused_lines (TakesLines text.now) site.old.handle.held result site.new.handle.held }
{
    site.take_lines(alloc, text)
}

/// Accepts a delta text.
#[unsafe(no_mangle)]
pub extern "C" fn sct_raw_accept(alloc: Global, site: &mut Place, text: &[u8]) -> AcceptOutcome
    ensures { IsCalled refused_accept (Accepts text.now) site.old.handle.held result site.new.handle.held }
{
    site.accept(alloc, text)
}

/// Writes how many entries of each origin the site holds, that of origin 1 first.
#[unsafe(no_mangle)]
pub extern "C" fn sct_raw_counts(alloc: Global, site: &mut Place, counts: &mut [u64]) -> CallOutcome
    ensures called { IsCalled refused_as (Counts counts.old counts.new) site.old.handle.held result site.new.handle.held }
    ensures unwritten { result.ok ≡ false → counts.new ≡ counts.old }
{
    site.counts(alloc, counts)
}

/// The version vector becomes the answer, as text.
#[unsafe(no_mangle)]
pub extern "C" fn sct_raw_vector_text(alloc: Global, site: &mut Place) -> CallOutcome
    ensures { IsCalled refused_as (Asks question.Vector) site.old.handle.held result site.new.handle.held }
{
    site.ask(alloc, Question::Vector)
}

/// The delta above a version vector of text becomes the answer.
#[unsafe(no_mangle)]
pub extern "C" fn sct_raw_cut(alloc: Global, site: &mut Place, vector: &[u8]) -> CallOutcome
    ensures { IsCalled refused_as (Asks (question.Cut vector.entry)) site.old.handle.held result site.new.handle.held }
{
    site.ask(alloc, Question::Cut(vector))
}

/// The delta above a vector of counts becomes the answer.
#[unsafe(no_mangle)]
pub extern "C" fn sct_raw_cut_above(alloc: Global, site: &mut Place, counts: &[u64]) -> CallOutcome
    ensures { IsCalled refused_as (Asks (question.CutAbove counts.entry)) site.old.handle.held result site.new.handle.held }
{
    site.ask(alloc, Question::CutAbove(counts))
}

/// The delta of the entries of an origin numbered above a count becomes the answer: as many as a text of `most` bytes has room
/// for, but at least the first.
#[unsafe(no_mangle)]
pub extern "C" fn sct_raw_entries(
    alloc: Global,
    site: &mut Place,
    origin: u16,
    above: u64,
    most: u64,
) -> CallOutcome
    ensures { IsCalled refused_as (Asks (question.Entries origin above most)) site.old.handle.held result site.new.handle.held }
{
    site.ask(
        alloc,
        Question::Entries {
            origin,
            above,
            most,
        },
    )
}

/// The 64 hexadecimal digits of the digest of an origin's entries up to a count become the answer.
#[unsafe(no_mangle)]
pub extern "C" fn sct_raw_digest(
    alloc: Global,
    site: &mut Place,
    origin: u16,
    count: u64,
) -> CallOutcome
    ensures { IsCalled refused_as (Asks (question.Digest origin count)) site.old.handle.held result site.new.handle.held }
{
    site.ask(alloc, Question::Digest { origin, count })
}

/// A line with the digest of each origin of which the site holds entries becomes the answer.
#[unsafe(no_mangle)]
pub extern "C" fn sct_raw_digests_text(alloc: Global, site: &mut Place) -> CallOutcome
    ensures { IsCalled refused_as (Asks question.Digests) site.old.handle.held result site.new.handle.held }
{
    site.ask(alloc, Question::Digests)
}

/// The site's own messages numbered above a count become the answer, each on a line.
#[unsafe(no_mangle)]
pub extern "C" fn sct_raw_journal_text(alloc: Global, site: &mut Place, above: u64) -> CallOutcome
    ensures { IsCalled refused_as (Asks (question.Journal above)) site.old.handle.held result site.new.handle.held }
{
    site.ask(alloc, Question::Journal(above))
}

/// The messages that came last become the answer, at most so many, each on a line.
#[unsafe(no_mangle)]
pub extern "C" fn sct_raw_newest_text(alloc: Global, site: &mut Place, count: u64) -> CallOutcome
    ensures { IsCalled refused_as (Asks (question.Newest count)) site.old.handle.held result site.new.handle.held }
{
    site.ask(alloc, Question::Newest(count))
}

/// What the site reads in the lines of a text becomes the answer. None of them is taken.
#[unsafe(no_mangle)]
pub extern "C" fn sct_raw_reading_text(alloc: Global, site: &mut Place, text: &[u8]) -> CallOutcome
    ensures { IsCalled refused_as (Asks (question.Reading text.entry)) site.old.handle.held result site.new.handle.held }
{
    site.ask(alloc, Question::Reading(text))
}

/// Evaluates what is new. No answer changes.
#[unsafe(no_mangle)]
pub extern "C" fn sct_raw_evaluate(alloc: Global, site: &mut Place) -> CallOutcome
    ensures { IsCalled refused_as Evaluates site.old.handle.held result site.new.handle.held }
{
    site.evaluate(alloc)
}

/// The archive text becomes the answer.
#[unsafe(no_mangle)]
pub extern "C" fn sct_raw_archive_text(alloc: Global, site: &mut Place) -> CallOutcome
    ensures { IsCalled refused_as (Asks question.Archive) site.old.handle.held result site.new.handle.held }
{
    site.ask(alloc, Question::Archive)
}

/// The status text becomes the answer.
#[unsafe(no_mangle)]
pub extern "C" fn sct_raw_status_text(alloc: Global, site: &mut Place) -> CallOutcome
    ensures { IsCalled refused_as (Asks question.Status) site.old.handle.held result site.new.handle.held }
{
    site.ask(alloc, Question::Status)
}

/// The totals text becomes the answer.
#[unsafe(no_mangle)]
pub extern "C" fn sct_raw_totals_text(alloc: Global, site: &mut Place) -> CallOutcome
    ensures { IsCalled refused_as (Asks question.Totals) site.old.handle.held result site.new.handle.held }
{
    site.ask(alloc, Question::Totals)
}

/// The contradicted identities become the answer.
#[unsafe(no_mangle)]
pub extern "C" fn sct_raw_contradictions_text(alloc: Global, site: &mut Place) -> CallOutcome
    ensures { IsCalled refused_as (Asks question.Contradictions) site.old.handle.held result site.new.handle.held }
{
    site.ask(alloc, Question::Contradictions)
}

/// The lines of one transfer become the answer, as the status text has them.
#[unsafe(no_mangle)]
pub extern "C" fn sct_raw_transfer_text(
    alloc: Global,
    site: &mut Place,
    bank: &[u8],
    tx: &[u8],
) -> CallOutcome
    ensures { IsCalled refused_as (Asks (question.Transfer bank.entry tx.entry)) site.old.handle.held result site.new.handle.held }
{
    site.ask(alloc, Question::Transfer { bank, tx })
}

/// The messages on one transfer become the answer, as the archive text has them.
#[unsafe(no_mangle)]
pub extern "C" fn sct_raw_messages_text(
    alloc: Global,
    site: &mut Place,
    bank: &[u8],
    tx: &[u8],
) -> CallOutcome
    ensures { IsCalled refused_as (Asks (question.Messages bank.entry tx.entry)) site.old.handle.held result site.new.handle.held }
{
    site.ask(alloc, Question::Messages { bank, tx })
}

/// The line of one bank becomes the answer, as the totals text has it.
#[unsafe(no_mangle)]
pub extern "C" fn sct_raw_bank_totals(alloc: Global, site: &mut Place, bank: &[u8]) -> CallOutcome
    ensures { IsCalled refused_as (Asks (question.Bank bank.entry)) site.old.handle.held result site.new.handle.held }
{
    site.ask(alloc, Question::Bank(bank))
}

/// The report on a bank's list for a settlement day becomes the answer.
#[unsafe(no_mangle)]
pub extern "C" fn sct_raw_report(
    alloc: Global,
    site: &mut Place,
    bank: &[u8],
    day: &[u8],
    list: &[u8],
) -> CallOutcome
    ensures { IsCalled refused_as (Asks (question.Report bank.entry day.entry list.entry)) site.old.handle.held result site.new.handle.held }
{
    site.ask(alloc, Question::Report { bank, day, list })
}

/// What is kept on a day becomes the answer, as the archive text has it.
#[unsafe(no_mangle)]
pub extern "C" fn sct_raw_kept_text(alloc: Global, site: &mut Place, day: &[u8]) -> CallOutcome
    ensures { IsCalled refused_as (Asks (question.Kept day.entry)) site.old.handle.held result site.new.handle.held }
{
    site.ask(alloc, Question::Kept(day))
}

/// What is closed on a day becomes the answer, as the archive text has it.
#[unsafe(no_mangle)]
pub extern "C" fn sct_raw_closed_text(alloc: Global, site: &mut Place, day: &[u8]) -> CallOutcome
    ensures { IsCalled refused_as (Asks (question.Closed day.entry)) site.old.handle.held result site.new.handle.held }
{
    site.ask(alloc, Question::Closed(day))
}

/// The lines of one transfer become the answer, as banks are shown them.
#[unsafe(no_mangle)]
pub extern "C" fn sct_raw_transfer_text_for(
    alloc: Global,
    site: &mut Place,
    banks: &[u8],
    bank: &[u8],
    tx: &[u8],
) -> CallOutcome
    ensures { IsCalled refused_as (Asks (question.TransferFor banks.entry bank.entry tx.entry)) site.old.handle.held result site.new.handle.held }
{
    site.ask(alloc, Question::TransferFor { banks, bank, tx })
}

/// The messages on one transfer become the answer, as banks are shown them.
#[unsafe(no_mangle)]
pub extern "C" fn sct_raw_messages_text_for(
    alloc: Global,
    site: &mut Place,
    banks: &[u8],
    bank: &[u8],
    tx: &[u8],
) -> CallOutcome
    ensures { IsCalled refused_as (Asks (question.MessagesFor banks.entry bank.entry tx.entry)) site.old.handle.held result site.new.handle.held }
{
    site.ask(alloc, Question::MessagesFor { banks, bank, tx })
}

/// The line of one of the banks becomes the answer, as the totals text has it.
#[unsafe(no_mangle)]
pub extern "C" fn sct_raw_bank_totals_for(
    alloc: Global,
    site: &mut Place,
    banks: &[u8],
    bank: &[u8],
) -> CallOutcome
    ensures { IsCalled refused_as (Asks (question.BankFor banks.entry bank.entry)) site.old.handle.held result site.new.handle.held }
{
    site.ask(alloc, Question::BankFor { banks, bank })
}

/// The report on a list of one of the banks for a settlement day becomes the answer, as banks are shown it.
#[unsafe(no_mangle)]
pub extern "C" fn sct_raw_report_for(
    alloc: Global,
    site: &mut Place,
    banks: &[u8],
    bank: &[u8],
    day: &[u8],
    list: &[u8],
) -> CallOutcome
    ensures { IsCalled refused_as (Asks (question.ReportFor banks.entry bank.entry day.entry list.entry)) site.old.handle.held result site.new.handle.held }
{
    site.ask(
        alloc,
        Question::ReportFor {
            banks,
            bank,
            day,
            list,
        },
    )
}

/// What changed since the call before becomes the answer.
#[unsafe(no_mangle)]
pub extern "C" fn sct_raw_changes(alloc: Global, site: &mut Place) -> CallOutcome
    ensures { IsCalled refused_as (Asks question.Changes) site.old.handle.held result site.new.handle.held }
{
    site.ask(alloc, Question::Changes)
}

/// Copies the answer, if it fits, and says its length.
#[unsafe(no_mangle)]
pub extern "C" fn sct_raw_answer(alloc: Global, site: &mut Place, out: &mut [u8]) -> CallOutcome
    ensures called { IsCalled refused_as (Copies out.old out.new) site.old.handle.held result site.new.handle.held }
    ensures unwritten { result.ok ≡ false → out.new ≡ out.old }
{
    site.answer(alloc, out)
}

/// Copies a part of the answer, and says its length.
#[unsafe(no_mangle)]
pub extern "C" fn sct_raw_answer_part(
    alloc: Global,
    site: &mut Place,
    from: usize,
    out: &mut [u8],
) -> CallOutcome
    ensures called { IsCalled refused_as (CopiesPart from out.old out.new) site.old.handle.held result site.new.handle.held }
    ensures unwritten { result.ok ≡ false → out.new ≡ out.old }
{
    site.answer_part(alloc, from, out)
}

/// The answer becomes empty, and its memory is freed.
#[unsafe(no_mangle)]
pub extern "C" fn sct_raw_answer_end(alloc: Global, site: &mut Place) -> CallOutcome
    ensures { IsCalled refused_as EndsAnswer site.old.handle.held result site.new.handle.held }
{
    site.end_answer(alloc)
}

/// Copies why the last call was refused, if it fits, and says the length of that text.
#[unsafe(no_mangle)]
pub extern "C" fn sct_raw_why(alloc: Global, site: &mut Place, out: &mut [u8]) -> CallOutcome
    ensures called { IsCalled refused_as (CopiesReason out.old out.new) site.old.handle.held result site.new.handle.held }
    ensures unwritten { result.ok ≡ false → out.new ≡ out.old }
{
    site.why(alloc, out)
}

/// Copies the name of a number, if it fits, and returns its length.
#[unsafe(no_mangle)]
pub extern "C" fn sct_raw_code_name(code: u8, out: &mut [u8]) -> usize
    ensures length { result ≡ length (code_name code) }
    ensures copied { IsCopied (code_name code) out.old out.new }
{
    copy_code_name(code, out)
}

/// Copies the meaning of a number, if it fits, and returns its length.
#[unsafe(no_mangle)]
pub extern "C" fn sct_raw_code_text(code: u8, out: &mut [u8]) -> usize
    ensures length { result ≡ length (code_text code) }
    ensures copied { IsCopied (code_text code) out.old out.new }
{
    copy_code_text(code, out)
}

/// The version of the library: 1000000 for each major, 1000 for each minor, 1 for each patch version.
#[unsafe(no_mangle)]
pub extern "C" fn sct_version() -> u32
    ensures { result ≡ version_number VERSION.now }
{
    version_number()
}
