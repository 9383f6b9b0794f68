//! The ended lines of a text, numbers in decimal, and the fields of an entry line, separated by one space.
ghost use Rattle.std.specs.Prelude.{◌≡◌, ◌<◌, ◌==◌, length, option_map, IfSome, position, ◌+◌, ◌∷◌, Some, None, MatchOption, ◌&&◌, ◌||◌, not, IsTrue, nat_le, slice_index, option_copied};
ghost use Rattle.sct_delta.specs.TextLines.{is_space, number_before_space, after_prefix, lines_by_end, ended_first, is_numeral, number_in, begins_right};
ghost use Rattle.sct_delta.specs.EntryText.{fields_in, site_in_form_1};
ghost use Rattle.std.specs.List.{position_from};

use crate::sites::is_site_of_form_1;
use sct_element::are_digits;

// Whether there is a character, and no zero comes before others.
fn begins_right(text: &[u8]) -> bool
    ensures { result ≡ begins_right text.now }
{
    text.len() == 1 || text.len() > 1 && text[0] != b'0'
}

// Whether the text is a number in decimal, of any size.
fn is_numeral(text: &[u8]) -> bool
    ensures { result ≡ is_numeral text.now }
{
    begins_right(text) && are_digits(text)
}

// The number that digits write, or none if it is not below 2^64.
fn number_of_digits(text: &[u8]) -> Option<u64>
    requires { IsTrue (is_numeral text.now) }
    ensures { result ≡ number_in text.now }
{
    match std::str::from_utf8(text) {
        Ok(digits) => digits.parse::<u64>().ok(),
        Err(_) => None,
    }
}

/// The number that a text writes in decimal, without a sign or a leading zero. None if
/// the text is not a number below 2^64.
#[tactic(auto, unfolding(crate::specs::TextLines::number_in))]
pub fn number_of(text: &[u8]) -> Option<u64>
    ensures { result ≡ number_in text.now }
{
    if is_numeral(text) {
        number_of_digits(text)
    } else {
        None
    }
}

// The place of the first line feed.
fn line_feed(bytes: &[u8]) -> Option<usize>
    ensures first { result ≡ position_from (λ byte. byte == 10) 0 bytes.now }
    ensures within { IfSome result (λ at. at < length bytes.now) }
{
    bytes.iter().position(|byte| *byte == b'\n')
}

/// The bytes before the first line feed, and the bytes after it. None if there is no line feed.
pub fn first_ended_line(bytes: &[u8]) -> Option<(&[u8], &[u8])>
    ensures lines { MatchOption result (ended_first (lines_by_end bytes.now) ≡ None)
        (λ parts. lines_by_end bytes.now ≡ Some parts.0.now ∷ lines_by_end parts.1.now) }
    ensures whole { IfSome result (λ parts. length parts.0.now + (1 + length parts.1.now) ≡ length bytes.now) }
    ensures shorter { IfSome result (λ parts. length parts.1.now < length bytes.now) }
{
    match line_feed(bytes) {
        Some(at) => {
            let (line, _) = bytes.split_at(at);
            let (_, rest) = bytes.split_at(at + 1);
            Some((line, rest))
        }
        None => None,
    }
}

// The place of the first space.
fn space(text: &[u8]) -> Option<usize>
    ensures place { result ≡ position is_space text.now }
    ensures within { IfSome result (λ at. at < length text.now) }
{
    text.iter().position(|byte| *byte == b' ')
}

/// The number before the first space of a text, and the bytes after that space. None if no number comes before a space.
#[tactic(auto, unfolding(crate::specs::TextLines::number_before_space))]
pub fn number_before_space(text: &[u8]) -> Option<(u64, &[u8])>
    ensures { option_map (λ field. (field.0, field.1.now)) result ≡ number_before_space text.now }
{
    let at = space(text)?;
    let (field, _) = text.split_at(at);
    let (_, rest) = text.split_at(at + 1);
    let n = number_of(field)?;
    Some((n, rest))
}

// The site of this number, or none if form 1 does not have it.
fn site_of(number: u64) -> Option<u16>
    ensures { result ≡ site_in_form_1 number }
{
    match u16::try_from(number) {
        Ok(origin) if is_site_of_form_1(origin) => Some(origin),
        _ => None,
    }
}

/// The bytes after the word that a line begins with, or none if it begins otherwise.
pub fn after_prefix<'a>(line: &'a [u8], word: &[u8]) -> Option<&'a [u8]>
    ensures { option_map (λ rest. rest.now) result ≡ after_prefix word.now line.now }
{
    line.strip_prefix(word)
}

/// The origin, the number and the JSON text of an entry line, or none if the line does not have this shape.
#[tactic(auto, unfolding(crate::specs::EntryText::fields_in))]
pub fn fields_of(line: &[u8]) -> Option<(u16, u64, &[u8])>
    ensures { option_map (λ fields. (fields.0, fields.1, fields.2.now)) result ≡ fields_in line.now }
{
    let rest = after_prefix(line, b"entry ")?;
    let (number, rest) = number_before_space(rest)?;
    let origin = site_of(number)?;
    let (n, json) = number_before_space(rest)?;
    Some((origin, n, json))
}
