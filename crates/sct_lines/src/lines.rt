//! A text as its lines.
ghost use Rattle.std.specs.Prelude.{◌≡◌, ◌≢◌, ◌<◌, ◌≤◌, ◌==◌, ◌∷◌, [], All, drop, length, slice_index, take, IfSome, IfNone};
ghost use Rattle.std.specs.List.{position_from};
ghost use Rattle.sct_lines.specs.LineLaws.{IsOfWholeLines, LinesMakeTheText, MessagesStay, NoLineHasAFeed, WholeLinesJoin, WholeLinesStay};
ghost use Rattle.sct_lines.specs.Lines.{is_blank, lines_of};

use memchr::{memchr, memrchr};

/// A law: the lines of a text are what is between its line feeds, and nothing of the text is lost.
pub fn lines_tile_the_text()
    ensures whole { LinesMakeTheText }
    ensures parted { NoLineHasAFeed }
{}

/// A law: if a text is empty or ends with a line feed, more text after it changes neither its lines nor its messages. Two such
/// texts make one.
pub fn whole_lines_stay()
    ensures lines { WholeLinesStay }
    ensures messages { MessagesStay }
    ensures join { WholeLinesJoin }
{}

// The place of the first line feed.
pub(crate) fn line_feed(bytes: &[u8]) -> Option<usize>
    ensures first { result ≡ position_from (λ byte. byte == 10) 0 bytes.now }
    ensures within { IfSome result (λ at. at < length bytes.now) }
    ensures feed { IfSome result (λ at. slice_index bytes.now at ≡ 10) }
{
    memchr(b'\n', bytes)
}

// The first line of a text that is not empty, and what comes after its line feed.
fn front_line(text: &[u8]) -> (&[u8], &[u8])
    requires { 0 < length text.now }
    ensures lines { lines_of text.now ≡ result.0.now ∷ lines_of result.1.now }
    ensures shorter { length result.1.now < length text.now }
{
    match line_feed(text) {
        Some(at) => {
            let (line, _) = text.split_at(at);
            let (_, rest) = text.split_at(at + 1);
            (line, rest)
        }
        None => text.split_at(text.len()),
    }
}

/// The first line of a text, without its line feed, and the text after that. None exactly if the text is empty.
/// O(line).
pub fn first_line(text: &[u8]) -> Option<(&[u8], &[u8])>
    ensures lines { IfSome result (λ parts. lines_of text.now ≡ parts.0.now ∷ lines_of parts.1.now) }
    ensures shorter { IfSome result (λ parts. length parts.1.now < length text.now) }
    ensures none { IfNone result (text.now ≡ []) }
{
    if text.is_empty() {
        return None;
    }
    Some(front_line(text))
}

/// How many bytes at the front of a text are lines with their line feeds: those up to its last line feed. 0 if it has no line
/// feed. O(the bytes after it).
pub fn whole_lines(text: &[u8]) -> usize
    ensures within { result ≤ length text.now }
    ensures lines { IsOfWholeLines (take result text.now) }
    ensures rest { All (λ byte. byte ≢ 10) (drop result text.now) }
{
    match memrchr(b'\n', text) {
        Some(at) => at + 1,
        None => 0,
    }
}

/// Whether a line has no bytes but spaces, tabs and carriage returns. An empty line is blank.
#[tactic(auto, unfolding(crate::specs::Lines::is_blank))]
pub fn is_blank_line(line: &[u8]) -> bool
    ensures { result ≡ is_blank line.now }
{
    line.iter()
        .all(|byte| *byte == b' ' || *byte == b'\t' || *byte == b'\r')
}
