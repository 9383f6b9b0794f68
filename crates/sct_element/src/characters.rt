//! Tests on the bytes of a text that several rules share.
ghost use Rattle.std.specs.Prelude.{◌≡◌, ◌&&◌, ◌||◌, nat_le};
ghost use Rattle.std.specs.Char.{is_ascii_digit};
ghost use Rattle.std.specs.List.{list_all};
ghost use Rattle.sct_element.specs.Text.{is_capital_or_digit};

/// Whether a length is at least 1 and at most `most`.
pub fn is_within(len: usize, most: usize) -> bool
    ensures { result ≡ (nat_le 1 len && nat_le len most) }
{
    1 <= len && len <= most
}

/// Whether each byte is `0-9`. True for an empty slice.
pub fn are_digits(bytes: &[u8]) -> bool
    ensures { result ≡ list_all is_ascii_digit bytes.now }
{
    bytes.iter().all(|byte| byte.is_ascii_digit())
}

/// Whether each byte is `A-Z` or `0-9`. True for an empty slice.
pub fn are_capitals_or_digits(bytes: &[u8]) -> bool
    ensures { result ≡ list_all is_capital_or_digit bytes.now }
{
    bytes
        .iter()
        .all(|byte| byte.is_ascii_uppercase() || byte.is_ascii_digit())
}
