//! Identifications, time stamps and codes: texts of a few characters, kept as they are read.
ghost use Rattle.std.specs.Prelude.{◌≡◌, ◌&&◌, ◌||◌, ◌==◌, ◌-◌, drop, zip, length, nat_le, not, codes, ok_or};
ghost use Rattle.std.specs.List.{list_all, list_any};
ghost use Rattle.sct_element.specs.Text.{is_capital_or_digit};
ghost use Rattle.sct_element.specs.Identification.{is_sepa_character, is_short_text, is_identification, is_code, has_double_slash, written_identification, written_stamp, written_code};
ghost use Rattle.sct_element.specs.declared.faults.ElementFault.TheVariants.{BadId, BadStamp, BadCode};
ghost use Rattle.sct_element.specs.Settles.{identification_settles, stamp_settles, code_settles};

use crate::characters::{are_capitals_or_digits, is_within};
use crate::checked::{Checked, Rule, kept_where};
use crate::faults::ElementFault;
use arrayvec::ArrayString;

/// An identification (Max35Text in the SEPA character set, EPC217-08) of 1 to 35 characters of
/// ``a-z A-Z 0-9 / - ? : ( ) . , ' +`` and the space. It has no slash at either end, and no two slashes in a row.
/// A text that is not an identification is refused with `BadId` (3).
pub type Id35 = Checked<IdentificationRule, 35>;

/// A time stamp, the text of an ISODateTime: 1 to 35 characters of the same set, slashes anywhere, in any form.
/// A text that is not a time stamp is refused with `BadStamp` (7).
pub type Stamp = Checked<StampRule, 35>;

/// A code (as the external codes of ISO 20022): 1 to 4 characters of `A-Z` and `0-9`.
/// A text that is not a code is refused with `BadCode` (9).
pub type Code4 = Checked<CodeRule, 4>;

/// The rule of [`Id35`].
pub struct IdentificationRule;

/// The rule of [`Stamp`].
pub struct StampRule;

/// The rule of [`Code4`].
pub struct CodeRule;

impl Rule<35> for IdentificationRule {
    ghost written = { written_identification };

    ghost fault = { BadId };

    #[tactic(auto, unfolding(crate::specs::Identification::written_identification))]
    fn keep(text: &str) -> Option<ArrayString<35>> {
        kept_where(is_identification(text.as_bytes()), text)
    }

    fn refusal() -> ElementFault {
        ElementFault::BadId
    }

    ghost settles = { identification_settles };
}

impl Rule<35> for StampRule {
    ghost written = { written_stamp };

    ghost fault = { BadStamp };

    #[tactic(auto, unfolding(crate::specs::Identification::written_stamp))]
    fn keep(text: &str) -> Option<ArrayString<35>> {
        kept_where(is_short_text(text.as_bytes()), text)
    }

    fn refusal() -> ElementFault {
        ElementFault::BadStamp
    }

    ghost settles = { stamp_settles };
}

impl Rule<4> for CodeRule {
    ghost written = { written_code };

    ghost fault = { BadCode };

    #[tactic(auto, unfolding(crate::specs::Identification::written_code))]
    fn keep(text: &str) -> Option<ArrayString<4>> {
        kept_where(is_code(text.as_bytes()), text)
    }

    fn refusal() -> ElementFault {
        ElementFault::BadCode
    }

    ghost settles = { code_settles };
}

/// Reads an identification, as `Id35::read` does. Error: `BadId` (3).
pub fn read_identification(text: &str) -> Result<Id35, ElementFault>
    ensures { result ≡ ok_or (written_identification text.now) ElementFault.BadId }
{
    Id35::read(text)
}

/// Reads a time stamp, as `Stamp::read` does. Error: `BadStamp` (7).
/// The program does not call it; users of the library can.
pub fn read_stamp(text: &str) -> Result<Stamp, ElementFault>
    ensures { result ≡ ok_or (written_stamp text.now) ElementFault.BadStamp }
{
    Stamp::read(text)
}

/// Reads a code, as `Code4::read` does. Error: `BadCode` (9).
pub fn read_code(text: &str) -> Result<Code4, ElementFault>
    ensures { result ≡ ok_or (written_code text.now) ElementFault.BadCode }
{
    Code4::read(text)
}

/// 1 at each character that SEPA messages may carry but the slash, 2 at the slash, and 0 at any other byte.
#[rattlefmt::skip]
static SEPA_CHARACTERS: [u8; 256] = [
    0, 0, 0, 0, 0, 0, 0, 0, 0, 0, 0, 0, 0, 0, 0, 0,
    0, 0, 0, 0, 0, 0, 0, 0, 0, 0, 0, 0, 0, 0, 0, 0,
    1, 0, 0, 0, 0, 0, 0, 1, 1, 1, 0, 1, 1, 1, 1, 2,
    1, 1, 1, 1, 1, 1, 1, 1, 1, 1, 1, 0, 0, 0, 0, 1,
    0, 1, 1, 1, 1, 1, 1, 1, 1, 1, 1, 1, 1, 1, 1, 1,
    1, 1, 1, 1, 1, 1, 1, 1, 1, 1, 1, 0, 0, 0, 0, 0,
    0, 1, 1, 1, 1, 1, 1, 1, 1, 1, 1, 1, 1, 1, 1, 1,
    1, 1, 1, 1, 1, 1, 1, 1, 1, 1, 1, 0, 0, 0, 0, 0,
    0, 0, 0, 0, 0, 0, 0, 0, 0, 0, 0, 0, 0, 0, 0, 0,
    0, 0, 0, 0, 0, 0, 0, 0, 0, 0, 0, 0, 0, 0, 0, 0,
    0, 0, 0, 0, 0, 0, 0, 0, 0, 0, 0, 0, 0, 0, 0, 0,
    0, 0, 0, 0, 0, 0, 0, 0, 0, 0, 0, 0, 0, 0, 0, 0,
    0, 0, 0, 0, 0, 0, 0, 0, 0, 0, 0, 0, 0, 0, 0, 0,
    0, 0, 0, 0, 0, 0, 0, 0, 0, 0, 0, 0, 0, 0, 0, 0,
    0, 0, 0, 0, 0, 0, 0, 0, 0, 0, 0, 0, 0, 0, 0, 0,
    0, 0, 0, 0, 0, 0, 0, 0, 0, 0, 0, 0, 0, 0, 0, 0,
];

fn is_sepa_character(byte: u8) -> bool
    ensures { result ≡ is_sepa_character byte }
{
    SEPA_CHARACTERS[usize::from(byte)] != 0
}

/// Whether a byte is a character that SEPA messages may carry, and no slash.
fn is_plain(byte: u8) -> bool
    ensures { result ≡ (is_sepa_character byte && not (byte == 47)) }
{
    SEPA_CHARACTERS[usize::from(byte)] == 1
}

fn are_sepa_characters(bytes: &[u8]) -> bool
    ensures { result ≡ list_all is_sepa_character bytes.now }
{
    bytes.iter().all(|byte| is_sepa_character(*byte))
}

fn is_short_text(bytes: &[u8]) -> bool
    ensures { result ≡ is_short_text bytes.now }
{
    is_within(bytes.len(), 35) && are_sepa_characters(bytes)
}

fn has_double_slash(bytes: &[u8]) -> bool
    ensures { result ≡ has_double_slash bytes.now }
{
    bytes
        .iter()
        .zip(bytes.iter().skip(1))
        .any(|(left, right)| *left == b'/' && *right == b'/')
}

fn are_plain(bytes: &[u8]) -> bool
    ensures { result ≡ list_all (λ c. is_sepa_character c && not (c == 47)) bytes.now }
{
    bytes.iter().all(|byte| is_plain(*byte))
}

/// Whether bytes are an identification. Most have no slash, and need no look at where it is.
#[tactic(auto, using(crate::proofs::Shortcuts::plain_identifies))]
fn is_identification(bytes: &[u8]) -> bool
    ensures { result ≡ is_identification bytes.now }
{
    if is_within(bytes.len(), 35) && are_plain(bytes) {
        return true;
    }
    is_short_text(bytes)
        && bytes[0] != b'/'
        && bytes[bytes.len() - 1] != b'/'
        && !has_double_slash(bytes)
}

fn is_code(bytes: &[u8]) -> bool
    ensures { result ≡ is_code bytes.now }
{
    is_within(bytes.len(), 4) && are_capitals_or_digits(bytes)
}
