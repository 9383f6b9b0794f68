//! Lists of banks, such as `BANKDEFF,BANQFRPP`.
ghost use Rattle.std.specs.Prelude.{◌≡◌, ◌<◌, ◌∷◌, [], length, option_map, position, IfOk, IfSome, MatchOption};
ghost use Rattle.std.specs.List.{slice_split};
ghost use Rattle.sct_delta.specs.VectorText.{is_comma};
ghost use Rattle.sct_rights.specs.Listing.{banks_among, banks_in};

use sct_element::Bic;
use sct_reconcile::bank_of;
use std::alloc::{AllocError, Global};

/// The greatest number of banks in a list.
const MOST_BANKS: usize = 16;

// The place of the first comma.
fn comma(text: &[u8]) -> Option<usize>
    ensures place { result ≡ position is_comma text.now }
    ensures within { IfSome result (λ at. at < length text.now) }
{
    text.iter().position(|byte| *byte == b',')
}

// The text before the first comma, and the text after it. None if there is no comma.
fn first_part(text: &[u8]) -> Option<(&[u8], &[u8])>
    ensures parts { MatchOption result (slice_split is_comma text.now ≡ text.now ∷ [])
        (λ parts. slice_split is_comma text.now ≡ parts.0.now ∷ slice_split is_comma parts.1.now) }
    ensures shorter { IfSome result (λ parts. length parts.1.now < length text.now) }
{
    let at = comma(text)?;
    let (part, _) = text.split_at(at);
    let (_, rest) = text.split_at(at + 1);
    Some((part, rest))
}

// The banks of a text, separated by commas. None if a part is no bank.
fn banks_among(alloc: Global, text: &[u8]) -> Result<Option<Vec<Bic>>, AllocError>
    ensures { IfOk result (λ banks. option_map (λ list. list.items) banks
        ≡ banks_among (slice_split is_comma text.now)) }
{
    let mut banks = Vec::new(alloc);
    let mut rest = text;
    while let Some((part, after)) = first_part(rest) {
        let Some(bank) = bank_of(part) else {
            return Ok(None);
        };
        banks.push(bank)?;
        rest = after;
    }
    let Some(bank) = bank_of(rest) else {
        return Ok(None);
    };
    banks.push(bank)?;
    Ok(Some(banks))
}

/// The banks that a text lists: 1 to 16 BICs of 8 or 11 characters, with commas between them and nothing else. None if it is no
/// such list. The error is that it is out of memory. O(bytes of the text).
#[tactic(auto, unfolding(crate::specs::Listing::banks_in))]
pub fn read_banks(alloc: Global, text: &[u8]) -> Result<Option<Vec<Bic>>, AllocError>
    ensures { IfOk result (λ banks. option_map (λ list. list.items) banks ≡ banks_in text.now) }
{
    let Some(banks) = banks_among(alloc, text)? else {
        return Ok(None);
    };
    if banks.len() > MOST_BANKS {
        return Ok(None);
    }
    Ok(Some(banks))
}
