//! Whose journal a file is, by its first bytes.

ghost use Rattle.std.specs.Prelude.{◌≡◌};
ghost use Rattle.sct_journal.specs.Fronts.{JournalsAreOurs, front_in, is_new_file, is_ours, is_staged};

use crate::lines::{OPEN, SHUT};

/// What a file is to a site.
#[derive(Clone, Copy, Debug, PartialEq)]
pub enum Front {
    /// The journal of the site.
    Ours,
    /// An empty file, or what a crash left of a journal of the site that was being made.
    New,
    /// The journal of another site, or of a site of another group.
    OtherSite,
    /// No journal.
    NoJournal,
}

// The first bytes of a journal of some site.
const SITE: &[u8] = b" site ";

/// Each file that keeps lines of which the first is the header is a journal of the site.
pub fn a_journal_is_never_refused()
    ensures { JournalsAreOurs }
{}

// What a file is to the site of a header.
pub(crate) fn front_of(header: &[u8], file: &[u8]) -> Front
    ensures { result ≡ front_in header.now file.now }
{
    if is_ours(header, file) {
        return Front::Ours;
    }
    if is_new(header, file) {
        return Front::New;
    }
    if file.starts_with(SITE) {
        return Front::OtherSite;
    }
    Front::NoJournal
}

fn is_ours(header: &[u8], file: &[u8]) -> bool
    ensures { result ≡ is_ours header.now file.now }
{
    let Some((gate, bytes)) = file.split_first() else {
        return false;
    };
    if *gate != OPEN {
        return false;
    }
    let Some(rest) = bytes.strip_prefix(header) else {
        return false;
    };
    rest.starts_with(b"\n")
}

fn is_new(header: &[u8], file: &[u8]) -> bool
    ensures { result ≡ is_new_file header.now file.now }
{
    if file.len() > header.len() + 3 {
        return false;
    }
    if file.len() <= 1 || file[0] == SHUT {
        return true;
    }
    is_staged(header, file)
}

// Whether the header and a shut gate stand behind the first byte, and nothing more.
pub(crate) fn is_staged(header: &[u8], file: &[u8]) -> bool
    ensures { result ≡ is_staged header.now file.now }
{
    let Some((_, bytes)) = file.split_first() else {
        return false;
    };
    let Some(rest) = bytes.strip_prefix(header) else {
        return false;
    };
    rest == b"\n\t".as_slice()
}
