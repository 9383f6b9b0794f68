//! Why an object is a form of no message.
ghost use Rattle.std.specs.Prelude.{◌≡◌, IfOk};

use crate::keys::Key;
use sct_element::ElementFault;
use sct_message::RuleFault;
use std::alloc::{AllocError, Global};
use std::marker::Model;
use thiserror::Error;

/// The text of a key that a message of its kind does not have.
#[derive(Debug, Drop)]
pub struct ExtraKey {
    text: String,
}

impl Model for ExtraKey {
    ghost use Rattle.std.specs.Prelude.{ℕ, List, string_bytes};

    ghost Value = { List ℕ };

    ghost view = { λ k. string_bytes k.text };
}

impl ExtraKey {
    pub(crate) fn of(alloc: Global, text: &str) -> Result<Self, AllocError>
        ensures { IfOk result (λ key. key ≡ text.now) }
    {
        Ok(ExtraKey {
            text: String::from_str(alloc, text)?,
        })
    }

    /// The key.
    pub fn as_str(&self) -> &str
        ensures { result.now ≡ self.now }
    {
        self.text.as_str()
    }
}

/// Why an object is no transaction of a recall message's list: the first reason that applies. The order is 34 to 36, key
/// by key in the order of the key table, and then 37.
#[derive(Debug, Drop, Error)]
pub enum KeyFault {
    /// 34: a key that each transaction has is absent.
    #[error("{} is missing", .0.text())]
    Missing(Key),
    /// 35: the value of a key is no text.
    #[error("{} is no text", .0.text())]
    NotText(Key),
    /// 36: the text of a key is not read as the key's element.
    #[error("{}: {}", .0.text(), .1)]
    Element(Key, ElementFault),
    /// 37: the object has a key that no transaction has; the first such key by its bytes.
    #[error("{} is no key of a transaction", .0.as_str())]
    Extra(ExtraKey),
}

impl KeyFault {
    ghost use Rattle.sct_json.specs.Faults.{key_fault_number};

    /// The fault's number, 34 to 37.
    pub fn number(&self) -> u8
        ensures { result ≡ key_fault_number self.now }
    {
        match self {
            KeyFault::Missing(_) => 34,
            KeyFault::NotText(_) => 35,
            KeyFault::Element(_, _) => 36,
            KeyFault::Extra(_) => 37,
        }
    }
}

/// Why an object is a form of no message: the first reason that applies. The order is 31 to 33; then 34 to 36, key by key
/// in the order of the kind's key table; then 37 and 38. For a recall message with a list, 46 and then 56 come after the
/// keys of its head and before 37. Only 30 does not depend on the object.
#[derive(Debug, Drop, Error)]
pub enum JsonFault {
    /// 30: out of memory.
    #[error("out of memory")]
    Memory,
    /// 31: the bytes are no JSON text.
    #[error("no JSON")]
    NotJson,
    /// 32: the JSON value is no object.
    #[error("no JSON object")]
    NotObject,
    /// 33: `MsgNmId` is absent, is no text, or is no name of a kind.
    #[error("MsgNmId is no name of a kind")]
    UnknownKind,
    /// 34: a key that each message of the kind has is absent.
    #[error("{} is missing", .0.text())]
    Missing(Key),
    /// 35: the value of a key is no text.
    #[error("{} is no text", .0.text())]
    NotText(Key),
    /// 36: the text of a key is not read as the key's element.
    #[error("{}: {}", .0.text(), .1)]
    Element(Key, ElementFault),
    /// 37: the object has a key that a message of the kind does not have; the first such key by its bytes.
    #[error("{} is no key of this kind", .0.as_str())]
    Extra(ExtraKey),
    /// 38: the elements break a rule of the kind.
    #[error("{}", .0)]
    Rule(RuleFault),
    /// 46: `TxInf` is no array of 1 to 100 elements, and the number is 0; or an element is no object, and the number is
    /// the place of the first such element, from 1.
    #[error("TxInf is no list of 1 to 100 objects: {0}")]
    BadTransactions(usize),
    /// 56: the element of `TxInf` at this place, from 1, is no transaction.
    #[error("transaction {0}: {1}")]
    At(usize, KeyFault),
}

impl JsonFault {
    ghost use Rattle.sct_json.specs.Faults.{json_fault_number, placed};

    /// The fault's number, 30 to 38, 46 or 56.
    pub fn number(&self) -> u8
        ensures { result ≡ json_fault_number self.now }
    {
        match self {
            JsonFault::Memory => 30,
            JsonFault::NotJson => 31,
            JsonFault::NotObject => 32,
            JsonFault::UnknownKind => 33,
            JsonFault::Missing(_) => 34,
            JsonFault::NotText(_) => 35,
            JsonFault::Element(_, _) => 36,
            JsonFault::Extra(_) => 37,
            JsonFault::Rule(_) => 38,
            JsonFault::BadTransactions(_) => 46,
            JsonFault::At(_, _) => 56,
        }
    }

    /// Turns a fault of an object's keys into the fault of the element at a place. Any other fault stays as it is.
    pub(crate) fn placed(self, place: usize) -> JsonFault
        ensures { result ≡ placed place self }
    {
        match self {
            JsonFault::Missing(key) => JsonFault::At(place, KeyFault::Missing(key)),
            JsonFault::NotText(key) => JsonFault::At(place, KeyFault::NotText(key)),
            JsonFault::Element(key, fault) => JsonFault::At(place, KeyFault::Element(key, fault)),
            JsonFault::Extra(name) => JsonFault::At(place, KeyFault::Extra(name)),
            other => other,
        }
    }
}
