//! The files that a site refuses, and the lines that report them.

ghost use Rattle.std.specs.Prelude.{◌≡◌, ◌++◌, IfOk, string_bytes};
ghost use Rattle.sct_exchange.specs.RefusedFiles.{refusal_text, refused_line, refused_text};

use sct_delta::{DeltaFault, push_fault};
use std::alloc::{AllocError, Global};
use std::fmt::Write;

/// A delta file that a site refuses.
#[derive(Debug, Drop, PartialEq, Eq)]
pub struct RefusedFile {
    /// The file's number on the command line. The journal is file 1, so the first delta file is 2.
    pub number: u64,
    /// Why the site refuses it: 44, 43, 41 or 42 for a delta, or 45 with the first wrong line.
    pub fault: DeltaFault,
}

/// Appends the number of a refusal and its fields, with a space between each two: `41 1 0 2`. The error is that it is out of
/// memory.
#[tactic(auto, unfolding(crate::specs::RefusedFiles::refusal_text))]
pub fn push_refusal(text: &mut String, fault: &DeltaFault) -> Result<(), AllocError>
    ensures { IfOk result (λ _. string_bytes text.new ≡ string_bytes text.old ++ refusal_text fault.now) }
{
    push_fault(text, fault, " ")
}

// Appends the line of a refused file.
#[tactic(auto, unfolding(crate::specs::RefusedFiles::refused_line))]
fn push_line(text: &mut String, file: &RefusedFile) -> Result<(), AllocError>
    ensures { IfOk result (λ _. string_bytes text.new ≡ string_bytes text.old ++ refused_line file.now) }
{
    let number = file.number;
    write!(text, "file {number}: ")?;
    push_refusal(text, &file.fault)?;
    text.push_str("\n")
}

/// The lines that report refused files, in their order: `file 2: 41 1 0 2` and a line feed. The error is that it is out
/// of memory.
#[tactic(auto, unfolding(crate::specs::RefusedFiles::refused_text))]
pub fn write_refused_files(alloc: Global, files: &[RefusedFile]) -> Result<String, AllocError>
    ensures { IfOk result (λ text. string_bytes text ≡ refused_text files.now) }
{
    let mut text = String::new(alloc);
    for file in files {
        push_line(&mut text, file)?;
    }
    Ok(text)
}
