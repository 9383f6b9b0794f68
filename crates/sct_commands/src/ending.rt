//! The end of a run: the text on standard error, and the exit status.
ghost use Rattle.std.specs.Prelude.{◌≡◌, ◌++◌, Some, OnErr, OnOk};
ghost use Rattle.sct_commands.specs.Ending.{ending_text_of, exit_status_of, fault_line_of};
ghost use Rattle.sct_streams.specs.Stream.{IsCutOff, IsWritten, IsWrittenOrCutOff};

use crate::fault::ProgramFault;
use crate::jobs::Done;
use arrayvec::ArrayString;
use itoa::Buffer;
use sct_streams::{Failed, Sink, write_all};

/// The end of a run without a fault of its own.
#[derive(Debug, Drop)]
pub enum Ending {
    /// The job was done.
    Done(Done),
    /// The requests to a site that is served came to their end.
    Served,
    /// The help was shown.
    Helped,
    /// The command line was a mistake: the text says why.
    Mistaken(String),
}

// The line that reports a fault, as `fault 62`. It does not allocate, because it reports out of memory too.
fn fault_line(fault: &ProgramFault) -> ArrayString<64>
    ensures { result.bytes ≡ fault_line_of fault.now }
{
    let mut digits = Buffer::new();
    let mut line = ArrayString::new();
    line.push_str("fault ");
    line.push_str(digits.format(fault.number()));
    match fault {
        ProgramFault::BadList(row) => {
            line.push_str(" ");
            line.push_str(digits.format(*row));
        }
        ProgramFault::Refused(number) => {
            line.push_str(" ");
            line.push_str(digits.format(*number));
        }
        _ => {}
    }
    line.push_str("\n");
    line
}

// Writes the line of a fault and the text after it.
fn write_fault<E: Sink>(fault: &ProgramFault, text: &str, err: &mut E) -> Result<(), Failed>
    ensures whole { OnOk result (IsWritten (E.state err.old) (E.state err.new)
        (Some (fault_line_of fault.now ++ text.now))) }
    ensures prefix { OnErr result (IsCutOff (E.state err.old) (E.state err.new)
        (Some (fault_line_of fault.now ++ text.now))) }
{
    write_all(err, fault_line(fault).as_bytes())?;
    write_all(err, text.as_bytes())
}

// Writes what standard error gets at the end of a run, after the refused lines.
fn write_ending<E: Sink>(ended: &Result<Ending, ProgramFault>, err: &mut E) -> Result<(), Failed>
    ensures whole { OnOk result (IsWritten (E.state err.old) (E.state err.new)
        (Some (ending_text_of ended.now))) }
    ensures prefix { OnErr result (IsCutOff (E.state err.old) (E.state err.new)
        (Some (ending_text_of ended.now))) }
{
    match ended {
        Ok(Ending::Done(_)) | Ok(Ending::Served) | Ok(Ending::Helped) => Ok(()),
        Ok(Ending::Mistaken(text)) => write_fault(&ProgramFault::Usage, text.as_str(), err),
        Err(fault) => write_fault(fault, "", err),
    }
}

// The exit status: 0 if all lines were taken, a site was served or help was shown, 1 if some line was refused, 3 for out of memory, 2 for any other fault.
fn exit_status(ended: &Result<Ending, ProgramFault>) -> u8
    ensures { result ≡ exit_status_of ended.now }
{
    match ended {
        Ok(Ending::Done(Done { refused: 0 })) | Ok(Ending::Served) | Ok(Ending::Helped) => 0,
        Ok(Ending::Done(_)) => 1,
        Err(ProgramFault::Memory) => 3,
        Ok(Ending::Mistaken(_)) | Err(_) => 2,
    }
}

/// Reports on standard error how a run ended, and returns the exit status.
/// A fault is reported by its number, as `fault 62`. The row follows for a bad list, and the number of the refusal for
/// a refusal at a site. A mistake in the command line is `fault 64`, followed by the text that says why.
/// If standard error fails here, the status stays the same.
pub fn conclude<E: Sink>(ended: &Result<Ending, ProgramFault>, err: &mut E) -> u8
    ensures status { result ≡ exit_status_of ended.now }
    ensures told { IsWrittenOrCutOff (E.state err.old) (E.state err.new)
        (Some (ending_text_of ended.now)) }
{
    let _ = write_ending(ended, err);
    exit_status(ended)
}
