//! The lines of a journal's file.

ghost use Rattle.std.specs.Prelude.{◌≡◌, ◌++◌, ◌∷◌, [], drop, IfSome, IfNone};
ghost use Rattle.sct_journal.specs.Kept.{IsLine, gated_line, is_ajar, kept};
ghost use Rattle.sct_journal.specs.Settled.{EndsKept};

use memchr::memchr;

pub(crate) const OPEN: u8 = b' ';

pub(crate) const SHUT: u8 = b'\t';

/// The first line that is kept, and the bytes after it. None exactly if no line is kept.
pub fn first_kept(file: &[u8]) -> Option<(&[u8], &[u8])>
    ensures kept { IfSome result (λ parts. kept file.now ≡ parts.0.now ∷ kept parts.1.now) }
    ensures bytes { IfSome result (λ parts. file.now ≡ gated_line parts.0.now ++ parts.1.now) }
    ensures line { IfSome result (λ parts. IsLine parts.0.now) }
    ensures none { IfNone result (kept file.now ≡ []) }
{
    let Some((gate, after)) = file.split_first() else {
        return None;
    };
    if *gate != OPEN {
        return None;
    }
    let Some(at) = memchr(b'\n', after) else {
        return None;
    };
    let (line, _) = after.split_at(at);
    let (_, rest) = after.split_at(at + 1);
    Some((line, rest))
}

// How many bytes at the front of a file are the lines that are kept.
pub(crate) fn kept_len(file: &[u8]) -> usize
    ensures { EndsKept file.now result }
{
    let mut rest = file;
    while let Some((_, after)) = first_kept(rest) {
        rest = after;
    }
    file.len() - rest.len()
}

// Whether a line could still be kept at a place of a file behind which no line is: no gate is there, or an open one.
pub(crate) fn is_ajar(file: &[u8], place: usize) -> bool
    ensures { result ≡ is_ajar (drop place file.now) }
{
    match file.get(place) {
        Some(gate) => *gate == OPEN,
        None => true,
    }
}
