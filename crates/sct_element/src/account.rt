//! Accounts by their international numbers.
ghost use Rattle.std.specs.Prelude.{◌≡◌, ◌<◌, ◌≤◌, ◌++◌, ◌==◌, ◌%◌, ◌&&◌, ◌||◌, ℕ, List, IsTrue, IsAscii, Some, None, MatchOption, length, nat_le, ok_or, flat_map, drop, take};
ghost use Rattle.std.specs.Bool.{OnTrue};
ghost use Rattle.std.specs.Char.{is_ascii_uppercase, is_ascii_digit, is_ascii_alphanumeric};
ghost use Rattle.std.specs.Int.Digits.{number_from_digits_after};
ghost use Rattle.std.specs.List.{list_all};
ghost use Rattle.sct_element.specs.Account.{digits_of_char, account_number, capitals, is_account_shaped, is_iban, written_iban};
ghost use Rattle.sct_element.specs.Settles.{iban_settles};
ghost use Rattle.sct_element.specs.declared.faults.ElementFault.TheVariants.{BadIban};

use crate::characters::{are_capitals_or_digits, are_digits};
use crate::checked::{Checked, Rule, push_byte};
use crate::faults::ElementFault;
use arrayvec::ArrayString;

/// An international bank account number (ISO 13616) of 5 to 34 characters: two capitals,
/// two digits, then letters and digits.
/// Its number leaves 1 modulo 97 (ISO 7064). It is kept in capitals. National lengths are not checked.
/// A text that is not an IBAN is refused with `BadIban` (2).
pub type Iban = Checked<IbanRule, 34>;

/// The rule of [`Iban`].
pub struct IbanRule;

impl Rule<34> for IbanRule {
    ghost written = { written_iban };

    ghost fault = { BadIban };

    #[tactic(auto, unfolding(crate::specs::Account::written_iban))]
    fn keep(text: &str) -> Option<ArrayString<34>> {
        if !is_shaped(text.as_bytes()) {
            return None;
        }
        let number = in_capitals(text);
        if remainder_of(number.as_bytes()) == 1 {
            Some(number)
        } else {
            None
        }
    }

    fn refusal() -> ElementFault {
        ElementFault::BadIban
    }

    ghost settles = { iban_settles };
}

/// Reads an international bank account number, as `Iban::read` does. Error: `BadIban` (2).
/// The program does not call it; users of the library can.
pub fn read_iban(text: &str) -> Result<Iban, ElementFault>
    ensures { result ≡ ok_or (written_iban text.now) ElementFault.BadIban }
{
    Iban::read(text)
}

fn are_capitals(bytes: &[u8]) -> bool
    ensures { result ≡ list_all is_ascii_uppercase bytes.now }
{
    bytes.iter().all(|byte| byte.is_ascii_uppercase())
}

fn are_letters_or_digits(bytes: &[u8]) -> bool
    ensures { result ≡ list_all is_ascii_alphanumeric bytes.now }
{
    bytes.iter().all(|byte| byte.is_ascii_alphanumeric())
}

fn is_sized(len: usize) -> bool
    ensures { result ≡ (nat_le 5 len && nat_le len 34) }
{
    5 <= len && len <= 34
}

fn is_shaped(bytes: &[u8]) -> bool
    ensures shaped { result ≡ is_account_shaped bytes.now }
    ensures ascii { OnTrue result (IsAscii bytes.now) }
    ensures sized { OnTrue result ((4 ≤ length bytes.now) × (length bytes.now ≤ 34)) }
{
    is_sized(bytes.len())
        && are_capitals(&bytes[..2])
        && are_digits(&bytes[2..4])
        && are_letters_or_digits(&bytes[4..])
}

/// The text with each small letter as a capital. Most texts have no small letter, and are copied at once.
#[tactic(auto, using(crate::proofs::Shortcuts::capitals_stay))]
fn in_capitals(text: &str) -> ArrayString<34>
    requires ascii { IsAscii text.now }
    requires sized { length text.now ≤ 34 }
    ensures { result.bytes ≡ capitals text.now }
{
    if !are_capitals_or_digits(text.as_bytes()) {
        return raised(text.as_bytes());
    }
    let mut same = ArrayString::new();
    same.push_str(text);
    same
}

/// The text of these bytes with each small letter as a capital, byte by byte.
fn raised(bytes: &[u8]) -> ArrayString<34>
    requires ascii { IsAscii bytes.now }
    requires sized { length bytes.now ≤ 34 }
    ensures { result.bytes ≡ capitals bytes.now }
{
    let mut capitals = ArrayString::new();
    for byte in bytes {
        push_byte(&mut capitals, byte.to_ascii_uppercase());
    }
    capitals
}

/// Continues the remainder modulo 97 of a number by the digits of one more character. `remainder` is that of the digits
/// before `byte`.
fn after_char(remainder: u64, byte: u8) -> u64
    requires { remainder < 97 }
    ensures below { result < 97 }
    ensures goes_on { (rest : List ℕ) → number_from_digits_after 10 result rest % 97
        ≡ number_from_digits_after 10 remainder (digits_of_char byte ++ rest) % 97 }
{
    if byte.is_ascii_digit() {
        (remainder * 10 + u64::from(byte - b'0')) % 97
    } else {
        let number = u64::from(byte.saturating_sub(55));
        ((remainder * 10 + number / 10) * 10 + number % 10) % 97
    }
}

/// Continues the remainder modulo 97 of a number by the digits of all of `bytes`.
fn after_chars(mut remainder: u64, bytes: &[u8]) -> u64
    requires { remainder < 97 }
    ensures below { result < 97 }
    ensures goes_on { (rest : List ℕ) → number_from_digits_after 10 result rest % 97
        ≡ number_from_digits_after 10 remainder (flat_map digits_of_char bytes.now ++ rest) % 97 }
{
    for byte in bytes {
        remainder = after_char(remainder, *byte);
    }
    remainder
}

/// The remainder modulo 97 of an account's number.
fn remainder_of(bytes: &[u8]) -> u64
    requires { 4 ≤ length bytes.now }
    ensures { result ≡ account_number bytes.now % 97 }
{
    let (front, back) = bytes.split_at(4);
    after_chars(after_chars(0, back), front)
}
