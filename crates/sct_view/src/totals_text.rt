//! The banks of a view, and its totals text: a line for each bank, with counts in decimal and amounts in euro with two decimals.
ghost use Rattle.std.specs.Prelude.{◌≡◌, IfOk, ◌+◌, ◌<◌, ◌++◌, ◌∷◌, [], OnOk, string_bytes, decimal};
ghost use Rattle.sct_view.specs.Totals.{banks_of, totals_of};
ghost use Rattle.sct_view.specs.TotalsText.{totals_line, totals_text_of, field};
ghost use Rattle.sct_element.specs.Money.{amount_text};

use crate::totals::Totals;
use crate::view::View;
use itoa::Buffer;
use sct_case::CaseFault;
use sct_element::Bic;
use std::alloc::AllocError;

// Appends a count in decimal.
fn push_count(text: &mut String, count: u64) -> Result<(), AllocError>
    ensures { OnOk result (string_bytes text.new ≡ string_bytes text.old ++ decimal count) }
{
    let mut digits = Buffer::new();
    text.push_str(digits.format(count))
}

// Appends a digit.
fn push_digit(text: &mut String, digit: u8) -> Result<(), AllocError>
    requires { digit < 10 }
    ensures { OnOk result (string_bytes text.new ≡ string_bytes text.old ++ (48 + digit) ∷ []) }
{
    text.push(char::from(b'0' + digit))
}

// Appends an amount, counted in cents, in euro with two decimals.
#[tactic(auto, unfolding(sct_element::specs::Money::amount_text))]
fn push_euros(text: &mut String, cents: u128) -> Result<(), AllocError>
    ensures { OnOk result (string_bytes text.new ≡ string_bytes text.old ++ amount_text cents) }
{
    let mut digits = Buffer::new();
    text.push_str(digits.format(cents / 100))?;
    text.push('.')?;
    push_digit(text, (cents % 100 / 10) as u8)?;
    push_digit(text, (cents % 10) as u8)
}

fn push_count_field(text: &mut String, count: u64) -> Result<(), AllocError>
    ensures { OnOk result (string_bytes text.new ≡ string_bytes text.old ++ field (decimal count)) }
{
    text.push('|')?;
    push_count(text, count)
}

fn push_amount_field(text: &mut String, cents: u128) -> Result<(), AllocError>
    ensures { OnOk result (string_bytes text.new ≡ string_bytes text.old ++ field (amount_text cents)) }
{
    text.push('|')?;
    push_euros(text, cents)
}

/// Appends the line of a bank. The error is that it is out of memory.
#[tactic(auto, unfolding(crate::specs::TotalsText::totals_line))]
pub fn push_totals_line(text: &mut String, bank: &Bic, totals: &Totals) -> Result<(), AllocError>
    ensures { OnOk result (string_bytes text.new ≡ string_bytes text.old ++ totals_line bank.now totals.now) }
{
    text.push_str(bank.text())?;
    push_count_field(text, totals.sent)?;
    push_amount_field(text, totals.sent_cents)?;
    push_amount_field(text, totals.returned_in)?;
    push_count_field(text, totals.rejected)?;
    push_count_field(text, totals.waiting)?;
    push_count_field(text, totals.missing)?;
    push_count_field(text, totals.contradicted)?;
    push_count_field(text, totals.received)?;
    push_amount_field(text, totals.received_cents)?;
    push_amount_field(text, totals.returned_out)?;
    text.push('\n')?;
    Ok(())
}

impl View {
    /// The banks whose totals are not all 0, ascending. Error: `Memory` (39). O(n log n) in the banks held.
    pub fn banks(&self) -> Result<Vec<Bic>, CaseFault>
        ensures { IfOk result (λ banks. banks.items ≡ banks_of self.now) }
    {
        let mut banks = self.tables.banks(self.alloc)?;
        banks.sort()?;
        banks.dedup();
        Ok(banks)
    }

    /// The line of one bank in bytes, as the totals text has it, with a line feed after it. A bank whose totals are all 0 has
    /// a line here too. Error: `Memory` (39). Expected O(1).
    pub fn totals_line(&self, bank: &Bic) -> Result<Vec<u8>, CaseFault>
        ensures { IfOk result (λ text. text.items ≡ totals_line bank.now (totals_of self.now bank.now)) }
    {
        let mut text = String::new(self.alloc);
        push_totals_line(&mut text, bank, &self.totals(bank))?;
        Ok(text.into_bytes())
    }

    /// The totals text in bytes, with a line for each bank whose totals are not all 0, and a line feed after each line.
    /// Error: `Memory` (39).
    #[tactic(auto, unfolding(crate::specs::TotalsText::totals_text_of))]
    pub fn totals_text(&self) -> Result<Vec<u8>, CaseFault>
        ensures { IfOk result (λ text. text.items ≡ totals_text_of self.now) }
    {
        let banks = self.banks()?;
        let mut text = String::new(self.alloc);
        for bank in &banks {
            push_totals_line(&mut text, bank, &self.totals(bank))?;
        }
        Ok(text.into_bytes())
    }
}
