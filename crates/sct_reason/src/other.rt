//! A code that the reason table does not list.
ghost use Rattle.std.specs.Prelude.{◌≡◌, IsTrue};
ghost use Rattle.sct_element.specs.Text.{where_read};
ghost use Rattle.sct_reason.specs.Listed.{is_other_code};

use crate::reasons::is_listed;
use sct_element::{Code4, read_code};

/// A code that is not a listed reason: 1 to 4 characters of `A-Z` and `0-9`.
#[derive(Debug, Drop)]
pub struct OtherCode {
    code: Code4,
    ghost other: { IsTrue (is_other_code code) },
}

impl OtherCode {
    ghost use Rattle.sct_reason.specs.Reasons.{other_of};

    /// Reads a code that is not a listed one. Returns none for any other text.
    pub fn read(text: &str) -> Option<OtherCode>
        ensures { result ≡ other_of text.now }
    {
        match unlisted_code(text) {
            Some(code) => Some(OtherCode { code }),
            None => None,
        }
    }

    /// The code's text.
    pub fn text(&self) -> &str
        ensures { result.now ≡ self.now.code }
    {
        self.code.text()
    }

    /// A copy. It does not allocate.
    pub fn copy(&self) -> Self
        ensures { result ≡ self.now }
    {
        OtherCode {
            code: self.code.copy(),
        }
    }
}

/// The code that a text is, or none if the text is a listed code or not a code.
#[tactic(auto, unfolding(crate::specs::Listed::is_other_code, sct_element::specs::Identification::written_code))]
fn unlisted_code(text: &str) -> Option<Code4>
    ensures { result ≡ where_read (is_other_code text.now) text.now }
{
    if is_listed(text) {
        return None;
    }
    match read_code(text) {
        Ok(code) => Some(code),
        Err(_) => None,
    }
}
