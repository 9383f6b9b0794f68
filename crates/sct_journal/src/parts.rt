//! The lines of a file, a part at a time.

ghost use Rattle.std.specs.Prelude.{◌≡◌, ◌⊎◌, ◌+◌, ◌≤◌, List, ℕ, IsErrOf, IsTrue, IfErr, IfOk, length, drop};
ghost use Rattle.sqlite_disk.specs.Disk.{MoreFaults};
ghost use Rattle.sct_journal.specs.Parts.{IsNextPart, IsNextText};
ghost use Rattle.sct_journal.specs.declared.error.JournalError.TheVariants as error;

use crate::disks::read_part;
use crate::error::JournalError;
use crate::lines::{is_ajar, kept_len};
use sqlite_disk::Disk;
use std::alloc::Global;

// So many bytes are read at a time.
const BLOCK: usize = 1 << 20;

// So many bytes if no line ends in a block: the longest request behind its gate, with its line feed.
const LONG: usize = (64 << 20) + 2;

// What was found in a part of a file.
#[derive(Drop)]
pub(crate) enum Part {
    // Lines that are kept.
    Lines(Vec<u8>),
    // No line is kept, whatever comes behind.
    End,
    // A line that does not end in the part.
    Longer,
}

// The next lines of a file of which so many bytes are left from a place on, or none if it keeps no more.
pub(crate) fn next_text<D: Disk>(
    alloc: Global,
    disk: &mut D,
    at: usize,
    rest: usize,
) -> Result<Option<Vec<u8>>, JournalError>
    requires usable { IsTrue (D.Disk.is_usable disk.old) }
    requires len { IsTrue (D.Disk.is_clean disk.old) → at + rest ≡ length (D.Disk.seen disk.old) }
    ensures next { IfOk result (λ next. IsNextText (IsTrue (D.Disk.is_clean disk.new)) (drop at (D.Disk.seen disk.old)) rest next) }
    ensures seen { D.Disk.seen disk.new ≡ D.Disk.seen disk.old }
    ensures usable { IsTrue (D.Disk.is_usable disk.new) }
    ensures crash { (c : List ℕ) → D.Disk.may_leave disk.new c → D.Disk.may_leave disk.old c }
    ensures clean { IsTrue (D.Disk.is_clean disk.new) → IsTrue (D.Disk.is_clean disk.old) }
    ensures failed { IsErrOf result error.Disk → MoreFaults (D.Disk.faults disk.old) (D.Disk.faults disk.new) }
    ensures faults { D.Disk.faults disk.old ≤ D.Disk.faults disk.new }
    ensures errors { IfErr result (λ e. (e ≡ error.Memory) ⊎ (e ≡ error.Disk)) }
{
    match next_part(alloc, disk, at, rest, BLOCK)? {
        Part::Lines(text) => Ok(Some(text)),
        Part::End => Ok(None),
        Part::Longer => long_text(alloc, disk, at, rest),
    }
}

// The same, where a line is longer than a block.
fn long_text<D: Disk>(
    alloc: Global,
    disk: &mut D,
    at: usize,
    rest: usize,
) -> Result<Option<Vec<u8>>, JournalError>
    requires usable { IsTrue (D.Disk.is_usable disk.old) }
    requires len { IsTrue (D.Disk.is_clean disk.old) → at + rest ≡ length (D.Disk.seen disk.old) }
    ensures next { IfOk result (λ next. IsNextText (IsTrue (D.Disk.is_clean disk.new)) (drop at (D.Disk.seen disk.old)) rest next) }
    ensures seen { D.Disk.seen disk.new ≡ D.Disk.seen disk.old }
    ensures usable { IsTrue (D.Disk.is_usable disk.new) }
    ensures crash { (c : List ℕ) → D.Disk.may_leave disk.new c → D.Disk.may_leave disk.old c }
    ensures clean { IsTrue (D.Disk.is_clean disk.new) → IsTrue (D.Disk.is_clean disk.old) }
    ensures failed { IsErrOf result error.Disk → MoreFaults (D.Disk.faults disk.old) (D.Disk.faults disk.new) }
    ensures faults { D.Disk.faults disk.old ≤ D.Disk.faults disk.new }
    ensures errors { IfErr result (λ e. (e ≡ error.Memory) ⊎ (e ≡ error.Disk)) }
{
    match next_part(alloc, disk, at, rest, LONG)? {
        Part::Lines(text) => Ok(Some(text)),
        Part::End => Ok(None),
        Part::Longer => match next_part(alloc, disk, at, rest, rest)? {
            Part::Lines(text) => Ok(Some(text)),
            Part::End => Ok(None),
            Part::Longer => Ok(None),
        },
    }
}

// The lines in the next bytes, at most so many.
fn next_part<D: Disk>(
    alloc: Global,
    disk: &mut D,
    at: usize,
    rest: usize,
    most: usize,
) -> Result<Part, JournalError>
    requires usable { IsTrue (D.Disk.is_usable disk.old) }
    requires len { IsTrue (D.Disk.is_clean disk.old) → at + rest ≡ length (D.Disk.seen disk.old) }
    ensures part { IfOk result (λ part. IsNextPart (IsTrue (D.Disk.is_clean disk.new)) (drop at (D.Disk.seen disk.old)) rest most part) }
    ensures seen { D.Disk.seen disk.new ≡ D.Disk.seen disk.old }
    ensures usable { IsTrue (D.Disk.is_usable disk.new) }
    ensures crash { (c : List ℕ) → D.Disk.may_leave disk.new c → D.Disk.may_leave disk.old c }
    ensures clean { IsTrue (D.Disk.is_clean disk.new) → IsTrue (D.Disk.is_clean disk.old) }
    ensures failed { IsErrOf result error.Disk → MoreFaults (D.Disk.faults disk.old) (D.Disk.faults disk.new) }
    ensures faults { D.Disk.faults disk.old ≤ D.Disk.faults disk.new }
    ensures errors { IfErr result (λ e. (e ≡ error.Memory) ⊎ (e ≡ error.Disk)) }
{
    let count = rest.min(most);
    let mut text = read_part(alloc, disk, at, count)?;
    let len = kept_len(&text);
    if len > 0 {
        text.truncate(len);
        return Ok(Part::Lines(text));
    }
    if count == rest {
        return Ok(Part::End);
    }
    if !is_ajar(&text, 0) {
        return Ok(Part::End);
    }
    Ok(Part::Longer)
}
