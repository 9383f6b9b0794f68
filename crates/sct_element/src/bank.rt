//! Banks by their identifier codes.
ghost use Rattle.std.specs.Prelude.{◌≡◌, ◌||◌, ◌==◌, IsTrue, Some, None, MatchOption, length, ok_or};
ghost use Rattle.sct_element.specs.Bank.{is_bic, full_bic, written_bic};
ghost use Rattle.sct_element.specs.Settles.{bic_settles};
ghost use Rattle.sct_element.specs.declared.faults.ElementFault.TheVariants.{BadBic};

use crate::characters::are_capitals_or_digits;
use crate::checked::{Checked, Rule};
use crate::faults::ElementFault;
use arrayvec::ArrayString;

/// A business identifier code (ISO 9362) of 8 or 11 characters, kept with 11: `BANKDEFF` is kept as `BANKDEFFXXX`.
/// A text that is not a BIC is refused with `BadBic` (1).
pub type Bic = Checked<BicRule, 11>;

/// The rule of [`Bic`].
pub struct BicRule;

impl Rule<11> for BicRule {
    ghost written = { written_bic };

    ghost fault = { BadBic };

    #[tactic(auto, unfolding(crate::specs::Bank::written_bic))]
    fn keep(text: &str) -> Option<ArrayString<11>> {
        if is_bic(text) { Some(full(text)) } else { None }
    }

    fn refusal() -> ElementFault {
        ElementFault::BadBic
    }

    ghost settles = { bic_settles };
}

/// Reads a business identifier code, as `Bic::read` does. Error: `BadBic` (1).
pub fn read_bic(text: &str) -> Result<Bic, ElementFault>
    ensures { result ≡ ok_or (written_bic text.now) ElementFault.BadBic }
{
    Bic::read(text)
}

fn is_sized(len: usize) -> bool
    ensures { result ≡ (len == 8 || len == 11) }
{
    len == 8 || len == 11
}

fn is_bic(text: &str) -> bool
    ensures { result ≡ is_bic text.now }
{
    let bytes = text.as_bytes();
    is_sized(bytes.len())
        && are_capitals_or_digits(bytes)
        && bytes[4].is_ascii_uppercase()
        && bytes[5].is_ascii_uppercase()
}

fn full(text: &str) -> ArrayString<11>
    requires { IsTrue (is_bic text.now) }
    ensures { result.bytes ≡ full_bic text.now }
{
    let mut full = ArrayString::new();
    full.push_str(text);
    if text.len() == 8 {
        full.push_str("XXX");
    }
    full
}
