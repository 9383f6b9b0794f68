//! The kinds of messages, and the names of a kind in a message.
ghost use Rattle.std.specs.Prelude.{◌≡◌, find};
ghost use Rattle.std.specs.Option.{option_copied};
ghost use Rattle.sct_message.specs.Kinds.{kind_text, is_version, is_name_of, kind_named};

use sct_element::are_digits;

/// A kind of message (ISO 20022, as EPC004-16 uses it), ordered by its text.
#[derive(Clone, Copy, Debug, PartialEq, Eq, PartialOrd, Ord, Hash)]
pub enum Kind {
    /// camt.029, ResolutionOfInvestigation: refuses a recall.
    Camt029,
    /// camt.056, FIToFIPaymentCancellationRequest: recalls a transfer.
    Camt056,
    /// pacs.002, FIToFIPaymentStatusReport: confirms a transfer, or rejects it with a reason.
    Pacs002,
    /// pacs.004, PaymentReturn: returns the money of a transfer that was recalled.
    Pacs004,
    /// pacs.008, FIToFICustomerCreditTransfer: carries a transfer.
    Pacs008,
    /// pacs.028, FIToFIPaymentStatusRequest: asks for the status of a transfer or of a recall.
    Pacs028,
}

impl Kind {
    /// Every kind, in the order of their texts.
    pub const ALL: [Kind; 6] = [
        Kind::Camt029,
        Kind::Camt056,
        Kind::Pacs002,
        Kind::Pacs004,
        Kind::Pacs008,
        Kind::Pacs028,
    ];

    /// The kind's text of 8 characters, such as `pacs.008`.
    pub fn text(self) -> &'static str
        ensures { result.now ≡ kind_text self }
    {
        match self {
            Kind::Camt029 => "camt.029",
            Kind::Camt056 => "camt.056",
            Kind::Pacs002 => "pacs.002",
            Kind::Pacs004 => "pacs.004",
            Kind::Pacs008 => "pacs.008",
            Kind::Pacs028 => "pacs.028",
        }
    }

    /// Whether a text names this kind. A name is the kind alone, or the kind followed by a version: a point, three
    /// digits, a point and two digits, as in `pacs.008.001.08`.
    #[tactic(auto, using(crate::proofs::Names::too_short))]
    pub fn is_named(self, name: &str) -> bool
        ensures { result ≡ is_name_of self name.now }
    {
        let bytes = name.as_bytes();
        if bytes.len() < 8 {
            return false;
        }
        let (kind, version) = bytes.split_at(8);
        kind == self.text().as_bytes() && (version.is_empty() || is_version(version))
    }

    /// The kind that a text names, or none if the text is not a name of a kind.
    pub fn of_name(name: &str) -> Option<Kind>
        ensures { result ≡ kind_named name.now }
    {
        first_named(&Kind::ALL, name).copied()
    }
}

/// The first of these kinds that a text names.
fn first_named<'a>(kinds: &'a [Kind], name: &str) -> Option<&'a Kind>
    ensures { option_copied result ≡ find (λ kind. is_name_of kind name.now) kinds.now }
{
    kinds.iter().find(|kind| kind.is_named(name))
}

/// Whether the bytes are a point, three digits, a point and two digits.
fn is_version(bytes: &[u8]) -> bool
    ensures { result ≡ is_version bytes.now }
{
    bytes.len() == 7
        && bytes[0] == b'.'
        && are_digits(&bytes[1..4])
        && bytes[4] == b'.'
        && are_digits(&bytes[5..])
}
