//! One run of a job: an input is read whole, and then its refused lines are reported and its text is written.
ghost use Rattle.std.specs.Prelude.{◌≡◌, ◌≢◌, ◌+◌, ◌≤◌, ◌⊎◌, ℕ, Err, IfOk, IfErr};
ghost use Rattle.sct_commands.specs.declared.fault.ProgramFault.TheVariants as fault;
ghost use Rattle.sct_commands.specs.Engine.{
  bad_row_of,
  job_text_if_told,
  told_text_if_told,
  AreCutOff,
  EndsUnwritten,
  EndsWork,
  IsAnswerOf,
  IsBadLimit,
  IsDone,
  IsPastLimit,
  IsReadWhole,
  IsRefusedInput,
  StandsOnList,
};
ghost use Rattle.sct_commands.specs.Fault.{failed_reads};
ghost use Rattle.sct_commands.specs.Stream.{streams};
ghost use Rattle.sct_streams.specs.Stream.{HasTakenIfTold, IsWritten};

use crate::answers::{ProgramAnswer, one_piece, write_answer};
use crate::fault::ProgramFault;
use crate::replays::answer_of_script;
use crate::texts::{
    archive_pieces, closed_pieces, kept_pieces, report_text, status_pieces, totals_text,
};
use sct_element::{Bic, Day};
use sct_input::read_messages;
use sct_lines::Intake;
use sct_reconcile::List;
use sct_streams::{Sink, Source, read_all};
use std::alloc::Global;
use std::mem;
use std::thread::Threads;

/// The greatest number of bytes of one input: 1 GiB.
pub const MOST_BYTES: u64 = 1_073_741_824;

/// The job of a command that reads standard input.
#[derive(Drop)]
pub enum Job {
    /// The status of each transfer and of its recalls, and the findings on the contradicted ones.
    Status,
    /// Each message held, written on a line of its own.
    Archive,
    /// What each bank sent and received.
    Totals,
    /// The comparison of the messages with a bank's list for a settlement day. The list is the bytes of its text.
    Report { bank: Bic, day: Day, list: Vec<u8> },
    /// What is kept on a day: each message with a tie to a transfer that is not done, written as the archive is.
    Keep(Day),
    /// What is closed on a day: the rest.
    Closed(Day),
    /// The outcomes of the events of a script, and then the answers of each site.
    Replay,
}

/// A run that ended without a fault.
#[derive(Clone, Copy, Debug, PartialEq, Eq)]
pub struct Done {
    /// How many lines were refused.
    pub refused: u64,
}

/// When the memory of a job is given back.
#[derive(Clone, Copy, Debug, PartialEq, Eq)]
pub enum Release {
    /// At once, one value after another.
    AtOnce,
    /// At the end of the process, which gives back all memory together. It takes less
    /// time, and is for a process that ends soon.
    AtExit,
}

impl Release {
    /// Gives back the memory of a value, or leaves it until the process ends.
    pub fn let_go<T: Drop>(self, value: T) {
        match self {
            Release::AtOnce => drop(value),
            Release::AtExit => mem::forget(value),
        }
    }
}

// The answer of a job. Its list is read first, if it has one, and then the whole input. `release` says what becomes of the messages,
// the view, the list or the events afterwards.
// Errors: `BadList` (48), `TooLong` (60), `Read` (62), `Usage` (64) if the input is not the script of a replay, and `Memory` (65).
fn answer_of_job<T: Threads + Sync, R: Source>(
    rt: &T,
    alloc: Global,
    release: Release,
    job: &Job,
    limit: u64,
    reader: &mut R,
) -> Result<ProgramAnswer, ProgramFault>
    ensures answered { IfOk result (IsAnswerOf job.now limit (R.state reader.old) (R.state reader.new)) }
    ensures ends { IfErr result EndsUnwritten }
    ensures usage { result ≡ Err fault.Usage → IsRefusedInput job.now limit (R.state reader.old) (R.state reader.new) }
    ensures list { StandsOnList (bad_row_of job.now) result }
    ensures unlisted { (row : ℕ) → result ≡ Err (fault.BadList row) → reader.new ≡ reader.old }
    ensures too_long { result ≡ Err fault.TooLong
        → IsPastLimit limit (R.state reader.old) (R.state reader.new) }
    ensures cut_input { result ≡ Err fault.Read
        → (n : ℕ) × ((n ≤ limit) × HasTakenIfTold (R.state reader.old).left (R.state reader.new).left n) }
    ensures failed_read { IfErr result (λ e. (R.state reader.new).failures
        ≡ (R.state reader.old).failures + failed_reads e) }
{
    match job {
        Job::Status => {
            let Intake { messages, refusals } = read_messages(rt, alloc, reader, limit)?;
            let pieces = status_pieces(rt, alloc, release, messages)?;
            Ok(ProgramAnswer::of(pieces, refusals))
        }
        Job::Archive => {
            let Intake { messages, refusals } = read_messages(rt, alloc, reader, limit)?;
            let pieces = archive_pieces(rt, alloc, release, messages)?;
            Ok(ProgramAnswer::of(pieces, refusals))
        }
        Job::Totals => {
            let Intake { messages, refusals } = read_messages(rt, alloc, reader, limit)?;
            let text = totals_text(rt, alloc, release, messages)?;
            Ok(ProgramAnswer::of(one_piece(alloc, text)?, refusals))
        }
        Job::Keep(day) => {
            let Intake { messages, refusals } = read_messages(rt, alloc, reader, limit)?;
            let pieces = kept_pieces(rt, alloc, release, messages, day)?;
            Ok(ProgramAnswer::of(pieces, refusals))
        }
        Job::Closed(day) => {
            let Intake { messages, refusals } = read_messages(rt, alloc, reader, limit)?;
            let pieces = closed_pieces(rt, alloc, release, messages, day)?;
            Ok(ProgramAnswer::of(pieces, refusals))
        }
        Job::Report { bank, day, list } => {
            let list = List::read(alloc, list)?;
            let Intake { messages, refusals } = read_messages(rt, alloc, reader, limit)?;
            let text = report_text(rt, alloc, release, messages, bank, day, &list)?;
            release.let_go(list);
            Ok(ProgramAnswer::of(one_piece(alloc, text)?, refusals))
        }
        Job::Replay => {
            let script = read_all(alloc, reader, limit)?;
            answer_of_script(alloc, release, &script)
        }
    }
}

/// Runs a job: reads its list, if it has one, then the whole input. An input of messages is read in blocks. It then writes the refused lines to `err` and the
/// job's text to `out`. `limit` is the greatest number of bytes of the input, 1 to 1,073,741,824.
///
/// Errors, with nothing written unless the error is `Write`:
/// - `Usage` (64): the limit is outside its range, and nothing was read; or `job` is
///   `Replay` and the input is not a script;
/// - `BadList` (48): the list has a bad record, and the input was not read;
/// - `TooLong` (60): the input has more bytes than the limit;
/// - `Read` (62): a read failed;
/// - `Write` (63): a write failed, and a prefix of the texts was written;
/// - `Memory` (65).
///
/// With `Release::AtOnce` all memory of the job is given back. With `Release::AtExit` the messages, the view, the list
/// or the events stay until the process ends.
pub fn engine<T: Threads + Sync, R: Source, O: Sink, E: Sink>(
    rt: &T,
    alloc: Global,
    job: &Job,
    limit: u64,
    release: Release,
    reader: &mut R,
    out: &mut O,
    err: &mut E,
) -> Result<Done, ProgramFault>
    ensures done { IfOk result (λ done. IsDone job.now limit
        (streams (R.state reader.old) (O.state out.old) (E.state err.old))
        (streams (R.state reader.new) (O.state out.new) (E.state err.new))
        done.refused) }

    // The cases of each fault.
    ensures ends { IfErr result EndsWork }
    ensures limit { IsBadLimit limit → (result ≡ Err fault.Usage) × (reader.new ≡ reader.old) }
    ensures usage { result ≡ Err fault.Usage
        → IsBadLimit limit ⊎ IsRefusedInput job.now limit (R.state reader.old) (R.state reader.new) }
    ensures list { StandsOnList (bad_row_of job.now) result }
    ensures unlisted { (row : ℕ) → result ≡ Err (fault.BadList row) → reader.new ≡ reader.old }
    ensures too_long { result ≡ Err fault.TooLong
        → IsPastLimit limit (R.state reader.old) (R.state reader.new) }
    ensures cut_input { result ≡ Err fault.Read
        → (n : ℕ) × ((n ≤ limit) × HasTakenIfTold (R.state reader.old).left (R.state reader.new).left n) }
    ensures failed_read { IfErr result (λ e. (R.state reader.new).failures
        ≡ (R.state reader.old).failures + failed_reads e) }
    ensures whole { result ≡ Err fault.Write → IsReadWhole limit (R.state reader.old) (R.state reader.new) }
    ensures cut_off { result ≡ Err fault.Write
        → AreCutOff (E.state err.old) (E.state err.new) (O.state out.old) (O.state out.new)
        (told_text_if_told job.now (R.state reader.old).left)
        (job_text_if_told job.now (R.state reader.old).left) }
    ensures order { result ≡ Err fault.Write → (out.new ≡ out.old)
        ⊎ IsWritten (E.state err.old) (E.state err.new) (told_text_if_told job.now (R.state reader.old).left) }
    ensures unwritten { IfErr result (λ e. e ≢ fault.Write → (out.new ≡ out.old) × (err.new ≡ err.old)) }
{
    if limit == 0 || limit > MOST_BYTES {
        return Err(ProgramFault::Usage);
    }
    let answer = answer_of_job(rt, alloc, release, job, limit, reader)?;
    Ok(write_answer(release, answer, out, err)?)
}
