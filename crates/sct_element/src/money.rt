//! Amounts of money.
ghost use Rattle.std.specs.Prelude.{◌≡◌, ◌↔◌, ℕ, ◌+◌, ◌-◌, ◌*◌, ◌^◌, ◌<◌, ◌≤◌, ◌++◌, ◌&&◌, ◌==◌, List, Some, None, IsTrue, IfSome, length, nat_eq, nat_le, ok_or, decimal, position};
ghost use Rattle.std.specs.Char.{is_ascii_digit};
ghost use Rattle.std.specs.List.{list_all};
ghost use Rattle.std.specs.Ordering.{nat_cmp};
ghost use Rattle.std.specs.Str.Parse.{digits_value};
ghost use Rattle.sct_element.specs.Money.{is_point, euros_of, hundredths_of, euros_before, cents_after, cents_of, amount_text, IsAmountText};

use crate::characters::{are_digits, is_within};
use crate::checked::push_byte;
use crate::faults::ElementFault;
use arrayvec::ArrayString;
use std::marker::Model;

/// An amount in euro (ActiveCurrencyAndAmount without its currency), from 0.01 to 999999999.99, counted in cents.
#[derive(Clone, Copy, Debug, PartialEq, Eq, PartialOrd, Ord, Hash)]
pub struct Amount {
    cents: u64,
}

impl Model for Amount {
    ghost Value = { ℕ };

    ghost view = { λ a. a.cents };

    ghost invariant = { λ a. (1 ≤ a.cents) × (a.cents ≤ 99999999999) };

    ghost inverse = { λ n. record { cents = n } };
}

impl Amount {
    /// Reads 1 to 9 digits, which a point and one or two digits may follow.
    /// Error: `BadAmount` (4) for any other text, and for 0.
    pub fn read(text: &str) -> Result<Amount, ElementFault>
        ensures { result ≡ ok_or (cents_of text.now) ElementFault.BadAmount }
    {
        match cents_of(text.as_bytes()) {
            Some(cents) => Ok(Amount { cents }),
            None => Err(ElementFault::BadAmount),
        }
    }

    /// The amount in cents.
    pub fn cents(self) -> u64
        ensures cents { result ≡ self }
        ensures range { (1 ≤ result) × (result ≤ 99999999999) }
    {
        self.cents
    }

    /// The written form: no leading zeros, two decimals.
    #[tactic(auto, using(crate::proofs::Amounts::amount_reads_back))]
    pub fn text(self) -> ArrayString<12>
        ensures text { result.bytes ≡ amount_text self }
        ensures reads_back { cents_of result.bytes ≡ Some self }
    {
        written(self.cents)
    }
}

/// An amount is read from exactly the texts that write it: whole euros, or whole euros, a point and one or two
/// decimals.
pub fn amounts_are_exact()
    ensures { (s : List ℕ) (cents : ℕ) → (cents_of s ≡ Some cents) ↔ IsAmountText s cents }
{}

/// A law: amounts are ordered as their cents are, and two are equal exactly if their cents are.
pub fn amounts_are_ordered_by_cents()
    ensures order { (a b : ℕ) → ⟦<Amount as Ord>⟧.cmp a b ≡ nat_cmp a b }
    ensures partial_order { (a b : ℕ) → ⟦<Amount as PartialOrd>⟧.partial_cmp a b ≡ Some (nat_cmp a b) }
    ensures equality { (a b : ℕ) → ⟦<Amount as PartialEq>⟧.eq a b ≡ nat_eq a b }
{}

/// The written form of an amount of this many cents.
#[tactic(auto, using(crate::proofs::Decimals::nine_long), unfolding(crate::specs::Money::amount_text))]
fn written(cents: u64) -> ArrayString<12>
    requires { cents ≤ 99999999999 }
    ensures { result.bytes ≡ amount_text cents }
{
    let mut text = ArrayString::new();
    push_decimal(&mut text, cents / 100);
    push_byte(&mut text, b'.');
    push_byte(&mut text, digit(cents % 100 / 10));
    push_byte(&mut text, digit(cents % 10));
    text
}

/// The character of a digit.
fn digit(value: u64) -> u8
    requires { value < 10 }
    ensures { result ≡ 48 + value }
{
    b'0' + value as u8
}

/// Appends a number in decimal.
#[tactic(auto, using(crate::proofs::Decimals::one_digit, crate::proofs::Decimals::last_digit, crate::proofs::Decimals::one_digit_long, crate::proofs::Decimals::last_digit_long))]
fn push_decimal(text: &mut ArrayString<12>, number: u64)
    requires { length text.old.bytes + length (decimal number) ≤ 12 }
    ensures bytes { text.new.bytes ≡ text.old.bytes ++ decimal number }
    ensures len { length text.new.bytes ≡ length text.old.bytes + length (decimal number) }
{
    if number < 10 {
        push_byte(text, digit(number));
        return;
    }
    push_decimal(text, number / 10);
    push_byte(text, digit(number % 10));
}

/// The number that at most nine digits write.
fn number_of(digits: &[u8]) -> u64
    requires digits { IsTrue (list_all is_ascii_digit digits.now) }
    requires few { length digits.now ≤ 9 }
    ensures { result ≡ digits_value 10 digits.now }
{
    let mut number = 0;
    for digit in digits {
        number = number * 10 + u64::from(digit - b'0');
    }
    number
}

#[tactic(auto, using(crate::proofs::Decimals::nine_digits_below))]
fn euros_of(bytes: &[u8]) -> Option<u64>
    ensures value { result ≡ euros_of bytes.now }
    ensures range { IfSome result (λ euros. euros ≤ 999999999) }
{
    if is_within(bytes.len(), 9) && are_digits(bytes) {
        Some(number_of(bytes))
    } else {
        None
    }
}

#[tactic(auto, using(crate::proofs::Decimals::two_digits_below))]
fn hundredths_of(bytes: &[u8]) -> Option<u64>
    ensures value { result ≡ hundredths_of bytes.now }
    ensures range { IfSome result (λ cents. cents ≤ 99) }
{
    if is_within(bytes.len(), 2) && are_digits(bytes) {
        let number = number_of(bytes);
        Some(if bytes.len() == 1 {
            10 * number
        } else {
            number
        })
    } else {
        None
    }
}

/// The euros of a text whose first point is at `point`.
fn euros_before(point: Option<usize>, bytes: &[u8]) -> Option<u64>
    requires { IfSome point (λ at. at < length bytes.now) }
    ensures value { result ≡ euros_before point bytes.now }
    ensures range { IfSome result (λ euros. euros ≤ 999999999) }
{
    match point {
        Some(at) => euros_of(&bytes[..at]),
        None => euros_of(bytes),
    }
}

/// The cents of a text whose first point is at `point`.
fn cents_after(point: Option<usize>, bytes: &[u8]) -> Option<u64>
    requires { IfSome point (λ at. at < length bytes.now) }
    ensures value { result ≡ cents_after point bytes.now }
    ensures range { IfSome result (λ cents. cents ≤ 99) }
{
    match point {
        Some(at) => hundredths_of(&bytes[at + 1..]),
        None => Some(0),
    }
}

/// The place of the first point, from 0.
fn point_of(bytes: &[u8]) -> Option<usize>
    ensures place { result ≡ position is_point bytes.now }
    ensures inside { IfSome result (λ at. at < length bytes.now) }
{
    bytes.iter().position(|byte| *byte == b'.')
}

#[tactic(auto, unfolding(crate::specs::Money::cents_of))]
fn cents_of(bytes: &[u8]) -> Option<u64>
    ensures value { result ≡ cents_of bytes.now }
    ensures range { IfSome result (λ cents. (1 ≤ cents) × (cents ≤ 99999999999)) }
{
    let point = point_of(bytes);
    let euros = euros_before(point, bytes)?;
    let cents = cents_after(point, bytes)?;
    let total = 100 * euros + cents;
    if 1 <= total { Some(total) } else { None }
}
