//! The lines of a text, and the words of a line.
ghost use Rattle.std.specs.Prelude.{◌≡◌, ◌<◌, ◌++◌, ◌∷◌, [], List, ℕ, length, option_map, position, IfSome, IfNone};
ghost use Rattle.sct_delta.specs.TextLines.{is_space};
ghost use Rattle.sct_journal.specs.Kept.{IsLine, ended_lines};
ghost use Rattle.sct_requests.specs.Words.{one_word, two_parts};

use memchr::memchr;

/// The first line of a text that a line feed ends, and what comes after that.
pub fn first_ended(text: &[u8]) -> Option<(&[u8], &[u8])>
    ensures first { IfSome result (λ parts. ended_lines text.now ≡ parts.0.now ∷ ended_lines parts.1.now) }
    ensures bytes { IfSome result (λ parts. text.now ≡ parts.0.now ++ 10 ∷ parts.1.now) }
    ensures line { IfSome result (λ parts. IsLine parts.0.now) }
    ensures none { IfNone result (ended_lines text.now ≡ []) }
{
    let Some(at) = memchr(b'\n', text) else {
        return None;
    };
    let (line, _) = text.split_at(at);
    let (_, rest) = text.split_at(at + 1);
    Some((line, rest))
}

// The place of the first space.
fn space(text: &[u8]) -> Option<usize>
    ensures place { result ≡ position is_space text.now }
    ensures within { IfSome result (λ at. at < length text.now) }
{
    text.iter().position(|byte| *byte == b' ')
}

/// The text, if it has no space.
pub(crate) fn one_word(text: &[u8]) -> Option<&[u8]>
    ensures { option_map (λ word. word.now) result ≡ one_word text.now }
{
    match space(text) {
        None => Some(text),
        Some(_) => None,
    }
}

/// The text up to its first space, and what comes after that. None if it has no space.
pub(crate) fn two_parts(text: &[u8]) -> Option<(&[u8], &[u8])>
    ensures { option_map (λ parts. (parts.0.now, parts.1.now)) result ≡ two_parts text.now }
{
    let at = space(text)?;
    let (word, _) = text.split_at(at);
    let (_, rest) = text.split_at(at + 1);
    Some((word, rest))
}
