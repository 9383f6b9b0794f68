//! The text of a version vector: `-`, or pairs of an origin and its count, as in `1:2,3:1`.
ghost use Rattle.std.specs.Prelude.{◌≡◌, ◌<◌, ◌∷◌, [], List, codes, length, nat_eq, option_and_then, option_map, position, string_bytes, true, IfOk, IfSome, MatchOption};
ghost use Rattle.std.specs.Cmp.Lexicographic.{pointwise};
ghost use Rattle.std.specs.List.{slice_split};
ghost use Rattle.sct_delta.specs.Sites.{is_site};
ghost use Rattle.sct_delta.specs.Vectors.{count_in};
ghost use Rattle.sct_delta.specs.VectorText.{CountsTheSame, IsReadBack, Pair, counts_of, is_colon, is_comma, joined_pairs, origin_of_text, origin_named, pair_in, pairs_among, pairs_in, vector_in, vector_of_pairs, vector_text, with_pair};

use crate::fault::DeltaFault;
use crate::sites::{MOST_SITES, is_site};
use crate::text::fields::number_of;
use crate::vector::Vector;
use std::alloc::{AllocError, Global};
use std::fmt::Write;

/// A law: the text of a version vector is read as the pairs that were written, which count the same at each site.
pub fn a_written_vector_is_read_back()
    ensures read { IsReadBack }
    ensures counts { CountsTheSame }
{}

// The origin of this number, or none if no site has it.
fn origin_named(number: u64) -> Option<u16>
    ensures origin { result ≡ origin_named number }
    ensures site { IfSome result (λ origin. is_site origin ≡ true) }
{
    match u16::try_from(number) {
        Ok(origin) if is_site(origin) => Some(origin),
        _ => None,
    }
}

/// The origin that a text names by its number in decimal. None if no site has that number, or if the text is no number.
pub fn origin_of(text: &[u8]) -> Option<u16>
    ensures origin { result ≡ origin_of_text text.now }
    ensures site { IfSome result (λ origin. is_site origin ≡ true) }
{
    let number = number_of(text)?;
    origin_named(number)
}

// The place of the first colon.
fn colon(text: &[u8]) -> Option<usize>
    ensures place { result ≡ position is_colon text.now }
    ensures within { IfSome result (λ at. at < length text.now) }
{
    text.iter().position(|byte| *byte == b':')
}

// The place of the first comma.
fn comma(text: &[u8]) -> Option<usize>
    ensures place { result ≡ position is_comma text.now }
    ensures within { IfSome result (λ at. at < length text.now) }
{
    text.iter().position(|byte| *byte == b',')
}

// An origin and its count, with a colon between them.
#[tactic(auto, unfolding(crate::specs::VectorText::pair_in))]
fn pair_of(text: &[u8]) -> Option<(u16, u64)>
    ensures { result ≡ pair_in text.now }
{
    let at = colon(text)?;
    let (origin, _) = text.split_at(at);
    let (_, count) = text.split_at(at + 1);
    let origin = origin_of(origin)?;
    let count = number_of(count)?;
    Some((origin, count))
}

// The text before the first comma, and the text after it. None if there is no comma.
fn first_part(text: &[u8]) -> Option<(&[u8], &[u8])>
    ensures parts { MatchOption result (slice_split is_comma text.now ≡ text.now ∷ [])
        (λ parts. slice_split is_comma text.now ≡ parts.0.now ∷ slice_split is_comma parts.1.now) }
    ensures shorter { IfSome result (λ parts. length parts.1.now < length text.now) }
{
    let at = comma(text)?;
    let (part, _) = text.split_at(at);
    let (_, rest) = text.split_at(at + 1);
    Some((part, rest))
}

// The pairs of a text, separated by commas. None if one of them is not a pair.
fn pairs_among(alloc: Global, text: &[u8]) -> Result<Option<Vec<(u16, u64)>>, AllocError>
    ensures { IfOk result (λ pairs. option_map (λ list. list.items) pairs
        ≡ pairs_among (slice_split is_comma text.now)) }
{
    let mut pairs = Vec::new(alloc);
    let mut rest = text;
    while let Some((part, after)) = first_part(rest) {
        let Some(pair) = pair_of(part) else {
            return Ok(None);
        };
        pairs.push(pair)?;
        rest = after;
    }
    let Some(pair) = pair_of(rest) else {
        return Ok(None);
    };
    pairs.push(pair)?;
    Ok(Some(pairs))
}

// The pairs of a text; no pairs for `-`. None if one of them is not a pair.
#[tactic(auto, unfolding(crate::specs::VectorText::pairs_in))]
fn pairs_of(alloc: Global, text: &[u8]) -> Result<Option<Vec<(u16, u64)>>, AllocError>
    ensures { IfOk result (λ pairs. option_map (λ list. list.items) pairs ≡ pairs_in text.now) }
{
    if text == b"-".as_slice() {
        return Ok(Some(Vec::new(alloc)));
    }
    pairs_among(alloc, text)
}

// The version vector of pairs, or none if the pairs do not make a vector.
#[tactic(auto, unfolding(crate::specs::VectorText::vector_of_pairs))]
fn vector_of_pairs(alloc: Global, pairs: &[(u16, u64)]) -> Result<Option<Vector>, AllocError>
    ensures { IfOk result (λ vector. option_map count_in vector
        ≡ option_map counts_of (vector_of_pairs pairs.now)) }
{
    match Vector::of(alloc, pairs) {
        Ok(vector) => Ok(Some(vector)),
        Err(DeltaFault::Memory) => Err(AllocError),
        Err(_) => Ok(None),
    }
}

/// The version vector that a text writes: `-`, or pairs of an origin and its count, separated by commas. The origins
/// are sites and ascend, and a count may be 0. None if the text is not a vector. The error is that it is out of memory.
#[tactic(auto, unfolding(crate::specs::VectorText::vector_in))]
pub fn read_vector(alloc: Global, text: &[u8]) -> Result<Option<Vector>, AllocError>
    ensures { IfOk result (λ vector. option_map count_in vector ≡ option_map counts_of (vector_in text.now)) }
{
    let Some(pairs) = pairs_of(alloc, text)? else {
        return Ok(None);
    };
    vector_of_pairs(alloc, &pairs)
}

// Appends an origin and its count after a comma, unless no text is before it. Nothing if the count is 0.
fn push_pair(text: &mut String, origin: u16, count: u64) -> Result<(), AllocError>
    ensures { IfOk result (λ _. (pairs : List Pair) → string_bytes text.old ≡ joined_pairs pairs
        → string_bytes text.new ≡ joined_pairs (with_pair pairs origin count)) }
{
    if count == 0 {
        return Ok(());
    }
    if !text.is_empty() {
        text.push_str(",")?;
    }
    write!(text, "{origin}:{count}")
}

/// Writes the text of a version vector: `-` if it counts no entry, or else the pair of each origin that has one, with
/// commas between them. The error is that it is out of memory. O(1024 × log origins).
#[tactic(auto, unfolding(crate::specs::VectorText::vector_text))]
pub fn write_vector(alloc: Global, vector: &Vector) -> Result<String, AllocError>
    ensures { IfOk result (λ text. string_bytes text ≡ vector_text (count_in vector.now)) }
{
    let mut text = String::new(alloc);
    for origin in 1..MOST_SITES + 1 {
        push_pair(&mut text, origin, vector.get(origin))?;
    }
    if text.is_empty() {
        text.push_str("-")?;
    }
    Ok(text)
}
