//! Reasons, and the table of their codes.
ghost use Rattle.std.specs.Prelude.{◌≡◌, find};
ghost use Rattle.std.specs.Option.{option_copied};
ghost use Rattle.sct_element.specs.Text.{is_text};
ghost use Rattle.sct_reason.specs.Codes.{reason_text};
ghost use Rattle.sct_reason.specs.Listed.{is_listed};
ghost use Rattle.sct_reason.specs.Reasons.{listed_reason};

use crate::other::OtherCode;

/// Why a transfer was rejected, recalled or returned, or why a recall was refused (external reason codes of ISO
/// 20022). Reasons are ordered by their texts.
#[derive(Debug, Drop)]
pub enum Reason {
    /// The transaction stopped by a timeout at the beneficiary bank.
    AB05,
    /// The transaction stopped by a timeout at the instructed bank.
    AB06,
    /// The bank of the message is not online.
    AB07,
    /// The beneficiary bank is not online.
    AB08,
    /// The transaction stopped by an error at the beneficiary bank.
    AB09,
    /// The transaction stopped by an error at the instructed bank.
    AB10,
    /// The account number is invalid or missing.
    AC01,
    /// The beneficiary's account number is invalid or missing.
    AC03,
    /// The account is closed.
    AC04,
    /// The account is blocked.
    AC06,
    /// A credit transfer is forbidden on this type of account.
    AG01,
    /// The operation code is invalid or missing.
    AG02,
    /// The original payment was never received.
    AG09,
    /// The bank of the message is suspended from the payment system.
    AG10,
    /// The beneficiary bank is suspended from the payment system.
    AG11,
    /// The amount exceeds the allowed maximum.
    AM02,
    /// The funds do not cover the amount.
    AM04,
    /// The transaction is a duplicate.
    AM05,
    /// The amount is not the agreed or expected one.
    AM09,
    /// The amount exceeds the settlement limit.
    AM23,
    /// The transaction has already been returned.
    ARDT,
    /// The beneficiary's address is missing or not correct.
    BE04,
    /// The customer decided so.
    CUST,
    /// A duplicate payment.
    DUPL,
    /// The file format is incomplete or invalid.
    FF01,
    /// The return follows a recall.
    FOCR,
    /// A fraudulent payment.
    FRAD,
    /// A legal decision.
    LEGL,
    /// The end customer is deceased.
    MD07,
    /// No reason given, by the customer.
    MS02,
    /// No reason given, by the bank.
    MS03,
    /// No answer from the customer.
    NOAS,
    /// The original transaction was never received.
    NOOR,
    /// The bank identifier is invalid or missing.
    RC01,
    /// The originator's account or identification is missing.
    RR01,
    /// The originator's name or address is missing.
    RR02,
    /// The beneficiary's name or address is missing.
    RR03,
    /// A regulatory reason.
    RR04,
    /// A technical problem led to a wrong payment.
    TECH,
    /// The message came after the cut-off time.
    TM01,
    /// A code that is not listed.
    Unlisted(OtherCode),
}

/// Passes each listed reason with its code to the macro `$walk`.
macro_rules! walk_codes {
    ($walk:ident $with:tt) => {
        $walk! { $with
            AB05 "AB05",
            AB06 "AB06",
            AB07 "AB07",
            AB08 "AB08",
            AB09 "AB09",
            AB10 "AB10",
            AC01 "AC01",
            AC03 "AC03",
            AC04 "AC04",
            AC06 "AC06",
            AG01 "AG01",
            AG02 "AG02",
            AG09 "AG09",
            AG10 "AG10",
            AG11 "AG11",
            AM02 "AM02",
            AM04 "AM04",
            AM05 "AM05",
            AM09 "AM09",
            AM23 "AM23",
            ARDT "ARDT",
            BE04 "BE04",
            CUST "CUST",
            DUPL "DUPL",
            FF01 "FF01",
            FOCR "FOCR",
            FRAD "FRAD",
            LEGL "LEGL",
            MD07 "MD07",
            MS02 "MS02",
            MS03 "MS03",
            NOAS "NOAS",
            NOOR "NOOR",
            RC01 "RC01",
            RR01 "RR01",
            RR02 "RR02",
            RR03 "RR03",
            RR04 "RR04",
            TECH "TECH",
            TM01 "TM01",
        }
    };
}

macro_rules! text_of {
    ([$reason:expr] $($name:ident $code:literal,)*) => {
        match $reason {
            $(Reason::$name => $code,)*
            Reason::Unlisted(other) => other.text(),
        }
    };
}

macro_rules! copy_of {
    ([$reason:expr] $($name:ident $code:literal,)*) => {
        match $reason {
            $(Reason::$name => Reason::$name,)*
            Reason::Unlisted(other) => Reason::Unlisted(other.copy()),
        }
    };
}

macro_rules! all_of {
    ([] $($name:ident $code:literal,)*) => {
        [$(Reason::$name),*]
    };
}

/// The listed reasons, in the order of their codes.
const LISTED: [Reason; 40] = walk_codes!(all_of[]);

impl Reason {
    ghost use Rattle.sct_reason.specs.Codes.{reason_text};
    ghost use Rattle.sct_reason.specs.Reasons.{reason_of};

    /// The reason of a code: a listed one, or `Unlisted`. Returns none if the text is not a code
    /// of 1 to 4 characters of `A-Z` and `0-9`.
    #[tactic(auto, unfolding(crate::specs::Reasons::reason_of))]
    pub fn read(text: &str) -> Option<Reason>
        ensures { result ≡ reason_of text.now }
    {
        match listed_reason(text) {
            Some(reason) => Some(reason),
            None => OtherCode::read(text).map(Reason::Unlisted),
        }
    }

    /// The code.
    pub fn text(&self) -> &str
        ensures { result.now ≡ reason_text self.now }
    {
        walk_codes!(text_of[self])
    }

    /// A copy. It does not allocate.
    pub fn copy(&self) -> Self
        ensures { result ≡ self.now }
    {
        walk_codes!(copy_of[self])
    }
}

/// The first of these reasons that has this code.
fn first_of_text<'a>(reasons: &'a [Reason], text: &str) -> Option<&'a Reason>
    ensures { option_copied result ≡ find (λ reason. is_text text.now (reason_text reason)) reasons.now }
{
    reasons.iter().find(|reason| text == reason.text())
}

/// The listed reason that has this code, or none.
#[tactic(auto, unfolding(crate::specs::Reasons::listed_reason))]
fn listed_reason(text: &str) -> Option<Reason>
    ensures { result ≡ listed_reason text.now }
{
    match first_of_text(&LISTED, text) {
        Some(reason) => Some(reason.copy()),
        None => None,
    }
}

/// Whether a text is a listed code.
#[tactic(auto, using(crate::specs::ReasonLaws::found_is_listed))]
pub(crate) fn is_listed(text: &str) -> bool
    ensures { result ≡ is_listed text.now }
{
    listed_reason(text).is_some()
}
