//! The keys of the JSON form: short names of ISO 20022 elements.
ghost use Rattle.std.specs.Prelude.{◌≡◌, ℕ, List, Some, IfSome, find, map};
ghost use Rattle.std.specs.Option.{option_copied};
ghost use Rattle.sct_element.specs.Text.{is_text};
ghost use Rattle.sct_message.specs.declared.kinds.Kind.{Kind};
ghost use Rattle.sct_json.specs.KeyLookups.{keys_of_length};
ghost use Rattle.sct_json.specs.Keys.{key_text, is_key_among, is_key_of, is_key_in};
ghost use Rattle.sct_json.specs.Names.{AscendByBytes};

use sct_message::Kind;
use std::fmt;

/// A key of the JSON form of a message.
#[derive(Clone, Copy, PartialEq, Eq)]
pub enum Key {
    /// The name of the message's kind.
    MsgNmId,
    /// The message's identification.
    MsgId,
    /// When the message was made.
    CreDtTm,
    /// The bank that sent it.
    InstgAgt,
    /// The bank that it was sent to.
    InstdAgt,
    /// The settlement date.
    IntrBkSttlmDt,
    /// The service level.
    SvcLvl,
    /// The local instrument.
    LclInstrm,
    /// The sender's reference.
    InstrId,
    /// The originator's reference.
    EndToEndId,
    /// The transfer's identification.
    TxId,
    /// The amount.
    IntrBkSttlmAmt,
    /// The currency.
    Ccy,
    /// Who bears the charges.
    ChrgBr,
    /// When the originator bank accepted the order.
    AccptncDtTm,
    /// The originator.
    Dbtr,
    /// The originator's account.
    DbtrAcct,
    /// The originator bank.
    DbtrAgt,
    /// The beneficiary bank.
    CdtrAgt,
    /// The beneficiary.
    Cdtr,
    /// The beneficiary's account.
    CdtrAcct,
    /// Remittance information.
    Ustrd,
    /// The identification of the original message.
    OrgnlMsgId,
    /// The name of the original message's kind.
    OrgnlMsgNmId,
    /// The originator's reference in the original message.
    OrgnlEndToEndId,
    /// The identification of the transfer in the original message.
    OrgnlTxId,
    /// The status of the transfer.
    TxSts,
    /// The reason.
    Rsn,
    /// The recall that the message is about.
    OrgnlCxlId,
    /// The identification of the recall.
    CxlId,
    /// The amount of the transfer that the message is about.
    OrgnlIntrBkSttlmAmt,
    /// The settlement date of that transfer.
    OrgnlIntrBkSttlmDt,
    /// The transactions of a recall message, as a list of objects.
    TxInf,
    /// The identification of the return.
    RtrId,
    /// The amount that comes back.
    RtrdIntrBkSttlmAmt,
    /// The identification of the answer to a recall.
    CxlStsId,
    /// The answer to a recall.
    Conf,
}

impl Key {
    /// The key of a text; none if no key has it.
    pub(crate) fn of_text(text: &str) -> Option<Key>
        ensures some { IfSome result (λ key. key_text key ≡ text.now) }
        ensures all { (key : Key) → text.now ≡ key_text key → result ≡ Some key }
    {
        first_of_text(keys_of_length(text.len()), text).copied()
    }

    /// Whether this is the other key.
    pub(crate) fn is(self, other: Key) -> bool
        ensures { result ≡ is_text (key_text other) (key_text self) }
    {
        self == other
    }

    /// The key as it is written in an object, such as `MsgId`.
    pub fn text(self) -> &'static str
        ensures { result.now ≡ key_text self }
    {
        match self {
            Key::MsgNmId => "MsgNmId",
            Key::MsgId => "MsgId",
            Key::CreDtTm => "CreDtTm",
            Key::InstgAgt => "InstgAgt",
            Key::InstdAgt => "InstdAgt",
            Key::IntrBkSttlmDt => "IntrBkSttlmDt",
            Key::SvcLvl => "SvcLvl",
            Key::LclInstrm => "LclInstrm",
            Key::InstrId => "InstrId",
            Key::EndToEndId => "EndToEndId",
            Key::TxId => "TxId",
            Key::IntrBkSttlmAmt => "IntrBkSttlmAmt",
            Key::Ccy => "Ccy",
            Key::ChrgBr => "ChrgBr",
            Key::AccptncDtTm => "AccptncDtTm",
            Key::Dbtr => "Dbtr",
            Key::DbtrAcct => "DbtrAcct",
            Key::DbtrAgt => "DbtrAgt",
            Key::CdtrAgt => "CdtrAgt",
            Key::Cdtr => "Cdtr",
            Key::CdtrAcct => "CdtrAcct",
            Key::Ustrd => "Ustrd",
            Key::OrgnlMsgId => "OrgnlMsgId",
            Key::OrgnlMsgNmId => "OrgnlMsgNmId",
            Key::OrgnlEndToEndId => "OrgnlEndToEndId",
            Key::OrgnlTxId => "OrgnlTxId",
            Key::TxSts => "TxSts",
            Key::Rsn => "Rsn",
            Key::OrgnlCxlId => "OrgnlCxlId",
            Key::CxlId => "CxlId",
            Key::OrgnlIntrBkSttlmAmt => "OrgnlIntrBkSttlmAmt",
            Key::OrgnlIntrBkSttlmDt => "OrgnlIntrBkSttlmDt",
            Key::TxInf => "TxInf",
            Key::RtrId => "RtrId",
            Key::RtrdIntrBkSttlmAmt => "RtrdIntrBkSttlmAmt",
            Key::CxlStsId => "CxlStsId",
            Key::Conf => "Conf",
        }
    }
}

impl fmt::Debug for Key {
    fn fmt<W: fmt::Write>(&self, f: &mut fmt::Formatter<W>) -> fmt::Result {
        f.write_str(self.text())
    }
}

/// The first of these keys that has a text.
fn first_of_text<'a>(keys: &'a [Key], text: &str) -> Option<&'a Key>
    ensures { option_copied result ≡ find (λ key. is_text text.now (key_text key)) keys.now }
{
    keys.iter().find(|key| text == key.text())
}

/// The keys whose texts have a length.
#[tactic(auto, unfolding(crate::specs::KeyLookups::keys_of_length))]
fn keys_of_length(length: usize) -> &'static [Key]
    ensures { result.now ≡ keys_of_length length }
{
    match length {
        3 => &[Key::Ccy, Key::Rsn],
        4 => &[Key::TxId, Key::Dbtr, Key::Cdtr, Key::Conf],
        5 => &[
            Key::MsgId,
            Key::TxSts,
            Key::Ustrd,
            Key::CxlId,
            Key::RtrId,
            Key::TxInf,
        ],
        6 => &[Key::SvcLvl, Key::ChrgBr],
        7 => &[
            Key::MsgNmId,
            Key::DbtrAgt,
            Key::CreDtTm,
            Key::CdtrAgt,
            Key::InstrId,
        ],
        8 => &[
            Key::InstgAgt,
            Key::InstdAgt,
            Key::DbtrAcct,
            Key::CdtrAcct,
            Key::CxlStsId,
        ],
        9 => &[Key::OrgnlTxId, Key::LclInstrm],
        10 => &[Key::OrgnlMsgId, Key::EndToEndId, Key::OrgnlCxlId],
        11 => &[Key::AccptncDtTm],
        12 => &[Key::OrgnlMsgNmId],
        13 => &[Key::IntrBkSttlmDt],
        14 => &[Key::IntrBkSttlmAmt],
        15 => &[Key::OrgnlEndToEndId],
        18 => &[Key::OrgnlIntrBkSttlmDt, Key::RtrdIntrBkSttlmAmt],
        19 => &[Key::OrgnlIntrBkSttlmAmt],
        _ => &[],
    }
}

/// What an object is to be: its shape says which keys it may have.
#[derive(Clone, Copy, Debug)]
pub(crate) enum Shape {
    /// A message of a kind. A camt.056 has its one transaction among the other keys.
    Flat(Kind),
    /// A camt.056 with a list of transactions.
    Listed,
    /// A transaction in that list.
    Transaction,
}

/// The keys of a pacs.008, in the order of their bytes.
static CREDIT_TRANSFER_KEYS: [Key; 22] = [
    Key::AccptncDtTm,
    Key::Ccy,
    Key::Cdtr,
    Key::CdtrAcct,
    Key::CdtrAgt,
    Key::ChrgBr,
    Key::CreDtTm,
    Key::Dbtr,
    Key::DbtrAcct,
    Key::DbtrAgt,
    Key::EndToEndId,
    Key::InstdAgt,
    Key::InstgAgt,
    Key::InstrId,
    Key::IntrBkSttlmAmt,
    Key::IntrBkSttlmDt,
    Key::LclInstrm,
    Key::MsgId,
    Key::MsgNmId,
    Key::SvcLvl,
    Key::TxId,
    Key::Ustrd,
];

/// The keys of a pacs.002, in the order of their bytes.
static STATUS_REPORT_KEYS: [Key; 12] = [
    Key::CreDtTm,
    Key::DbtrAgt,
    Key::InstdAgt,
    Key::InstgAgt,
    Key::MsgId,
    Key::MsgNmId,
    Key::OrgnlEndToEndId,
    Key::OrgnlMsgId,
    Key::OrgnlMsgNmId,
    Key::OrgnlTxId,
    Key::Rsn,
    Key::TxSts,
];

/// The keys of a pacs.028, in the order of their bytes.
static STATUS_REQUEST_KEYS: [Key; 11] = [
    Key::CreDtTm,
    Key::DbtrAgt,
    Key::InstdAgt,
    Key::InstgAgt,
    Key::MsgId,
    Key::MsgNmId,
    Key::OrgnlCxlId,
    Key::OrgnlEndToEndId,
    Key::OrgnlMsgId,
    Key::OrgnlMsgNmId,
    Key::OrgnlTxId,
];

/// The keys of a camt.056, in the order of their bytes.
static CANCELLATION_REQUEST_KEYS: [Key; 15] = [
    Key::Ccy,
    Key::CreDtTm,
    Key::CxlId,
    Key::DbtrAgt,
    Key::InstdAgt,
    Key::InstgAgt,
    Key::MsgId,
    Key::MsgNmId,
    Key::OrgnlEndToEndId,
    Key::OrgnlIntrBkSttlmAmt,
    Key::OrgnlIntrBkSttlmDt,
    Key::OrgnlMsgId,
    Key::OrgnlMsgNmId,
    Key::OrgnlTxId,
    Key::Rsn,
];

/// The keys of a camt.056 with a list of transactions, in the order of their bytes.
static LISTED_KEYS: [Key; 6] = [
    Key::CreDtTm,
    Key::InstdAgt,
    Key::InstgAgt,
    Key::MsgId,
    Key::MsgNmId,
    Key::TxInf,
];

/// The keys of a transaction in that list, in the order of their bytes.
static TRANSACTION_KEYS: [Key; 10] = [
    Key::Ccy,
    Key::CxlId,
    Key::DbtrAgt,
    Key::OrgnlEndToEndId,
    Key::OrgnlIntrBkSttlmAmt,
    Key::OrgnlIntrBkSttlmDt,
    Key::OrgnlMsgId,
    Key::OrgnlMsgNmId,
    Key::OrgnlTxId,
    Key::Rsn,
];

/// The keys of a pacs.004, in the order of their bytes.
static PAYMENT_RETURN_KEYS: [Key; 17] = [
    Key::Ccy,
    Key::CreDtTm,
    Key::DbtrAgt,
    Key::InstdAgt,
    Key::InstgAgt,
    Key::IntrBkSttlmDt,
    Key::MsgId,
    Key::MsgNmId,
    Key::OrgnlCxlId,
    Key::OrgnlEndToEndId,
    Key::OrgnlIntrBkSttlmAmt,
    Key::OrgnlMsgId,
    Key::OrgnlMsgNmId,
    Key::OrgnlTxId,
    Key::Rsn,
    Key::RtrId,
    Key::RtrdIntrBkSttlmAmt,
];

/// The keys of a camt.029, in the order of their bytes.
static RESOLUTION_KEYS: [Key; 14] = [
    Key::Conf,
    Key::CreDtTm,
    Key::CxlStsId,
    Key::DbtrAgt,
    Key::InstdAgt,
    Key::InstgAgt,
    Key::MsgId,
    Key::MsgNmId,
    Key::OrgnlCxlId,
    Key::OrgnlEndToEndId,
    Key::OrgnlMsgId,
    Key::OrgnlMsgNmId,
    Key::OrgnlTxId,
    Key::Rsn,
];

/// The keys of a message of a kind, a camt.056 with one transaction, in the order of their bytes.
fn keys_of(kind: Kind) -> &'static [Key]
    ensures ascend { AscendByBytes (map key_text result.now) }
    ensures all { (name : List ℕ) → is_key_among result.now name ≡ is_key_of kind name }
{
    match kind {
        Kind::Pacs008 => &CREDIT_TRANSFER_KEYS,
        Kind::Pacs002 => &STATUS_REPORT_KEYS,
        Kind::Pacs028 => &STATUS_REQUEST_KEYS,
        Kind::Camt056 => &CANCELLATION_REQUEST_KEYS,
        Kind::Pacs004 => &PAYMENT_RETURN_KEYS,
        Kind::Camt029 => &RESOLUTION_KEYS,
    }
}

/// The keys of a shape, in the order of their bytes.
pub(crate) fn keys_in(shape: Shape) -> &'static [Key]
    ensures ascend { AscendByBytes (map key_text result.now) }
    ensures all { (name : List ℕ) → is_key_among result.now name ≡ is_key_in shape name }
{
    match shape {
        Shape::Flat(kind) => keys_of(kind),
        Shape::Listed => &LISTED_KEYS,
        Shape::Transaction => &TRANSACTION_KEYS,
    }
}
