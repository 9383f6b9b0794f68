//! Why a text is not a valid element.
ghost use Rattle.std.specs.Prelude.{◌≡◌};
ghost use Rattle.sct_element.specs.Faults.{element_fault_number};

use thiserror::Error;

/// The fault of a text that is not a valid element, by the element's type. Its number is printed after the key.
#[derive(Clone, Copy, Debug, PartialEq, Eq, Error)]
pub enum ElementFault {
    /// 1: not a business identifier code (ISO 9362).
    #[error("no BIC")]
    BadBic,
    /// 2: not an international bank account number (ISO 13616).
    #[error("no IBAN")]
    BadIban,
    /// 3: not an identification of 1 to 35 characters.
    #[error("no identification")]
    BadId,
    /// 4: not an amount from 0.01 to 999999999.99 (euro).
    #[error("no amount")]
    BadAmount,
    /// 5: not a date of the form YYYY-MM-DD.
    #[error("no date")]
    BadDay,
    /// 6: not a name of 1 to 70 characters, or not remittance information of 1 to 140.
    #[error("no text of the allowed length")]
    BadText,
    /// 7: not a time stamp of 1 to 35 characters.
    #[error("no time stamp")]
    BadStamp,
    /// 8: out of memory for a name or remittance information.
    #[error("out of memory")]
    Memory,
    /// 9: not a code of 1 to 4 capitals and digits.
    #[error("no code")]
    BadCode,
}

impl ElementFault {
    /// The fault's number, 1 to 9.
    pub fn number(self) -> u8
        ensures { result ≡ element_fault_number self }
    {
        match self {
            ElementFault::BadBic => 1,
            ElementFault::BadIban => 2,
            ElementFault::BadId => 3,
            ElementFault::BadAmount => 4,
            ElementFault::BadDay => 5,
            ElementFault::BadText => 6,
            ElementFault::BadStamp => 7,
            ElementFault::Memory => 8,
            ElementFault::BadCode => 9,
        }
    }
}
