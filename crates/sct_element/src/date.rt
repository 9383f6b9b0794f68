//! Dates.
ghost use Rattle.std.specs.Prelude.{◌≡◌, ◌&&◌, ◌==◌, ◌≤◌, IsTrue, MatchOption, length, take, drop, slice_index, ok_or};
ghost use Rattle.std.specs.List.{list_all};
ghost use Rattle.std.specs.Char.{is_ascii_digit};
ghost use Rattle.sct_element.specs.Date.{is_day, written_day};
ghost use Rattle.sct_element.specs.Settles.{day_settles};
ghost use Rattle.sct_element.specs.declared.faults.ElementFault.TheVariants.{BadDay};

use crate::characters::are_digits;
use crate::checked::{Checked, Rule, kept_where};
use crate::faults::ElementFault;
use arrayvec::ArrayString;

/// A date (ISODate) of the form `YYYY-MM-DD`. No calendar is consulted.
/// A text of another form is refused with `BadDay` (5).
pub type Day = Checked<DayRule, 10>;

/// The rule of [`Day`].
pub struct DayRule;

impl Rule<10> for DayRule {
    ghost written = { written_day };

    ghost fault = { BadDay };

    #[tactic(auto, unfolding(crate::specs::Date::written_day))]
    fn keep(text: &str) -> Option<ArrayString<10>> {
        kept_where(is_day(text.as_bytes()), text)
    }

    fn refusal() -> ElementFault {
        ElementFault::BadDay
    }

    ghost settles = { day_settles };
}

/// Reads a date, as `Day::read` does. Error: `BadDay` (5).
pub fn read_day(text: &str) -> Result<Day, ElementFault>
    ensures { result ≡ ok_or (written_day text.now) ElementFault.BadDay }
{
    Day::read(text)
}

fn is_day(bytes: &[u8]) -> bool
    ensures { result ≡ is_day bytes.now }
{
    bytes.len() == 10
        && are_digits(&bytes[..4])
        && bytes[4] == b'-'
        && are_digits(&bytes[5..7])
        && bytes[7] == b'-'
        && are_digits(&bytes[8..])
}
