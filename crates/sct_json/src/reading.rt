//! From the bytes of an object to its message.
ghost use Rattle.std.specs.Prelude.{◌≡◌, ◌≢◌, Ok, IfErr};
ghost use Rattle.serde_json.specs.Read.{read};
ghost use Rattle.serde_json.specs.View.{view, members_view};
ghost use Rattle.sct_message.specs.Rules.{first_broken_rule};
ghost use Rattle.sct_json.specs.Objects.{message_object, GivesOrLeaves};
ghost use Rattle.sct_json.specs.declared.faults.JsonFault.TheVariants as fault;
ghost use Rattle.sct_json.specs.Reading.{GivesWithMemory, draft_in, kind_in, shape_in, follows_unless, message_in_whole, object_in, value_in, message_in};

use crate::extra_key::refuse_extra;
use crate::faults::JsonFault;
use crate::keys::{Key, Shape};
use crate::object::{Found, Object};
use crate::plain_message::PlainMessage;
use crate::{
    cancellation_request, credit_transfer, payment_return, plain_message, resolution,
    status_report, status_request,
};
use json::Scratch;
use sct_message::{Boxed, Draft, Kind, Message};
use serde_json::{Map, Value};
use std::alloc::Global;

/// The kind that the text at `MsgNmId` names.
fn kind_in<O: Object>(object: &O) -> Option<Kind>
    ensures { result ≡ kind_in (O.value object.now) }
{
    match object.at(Key::MsgNmId) {
        Found::Text(name) => Kind::of_name(name),
        _ => None,
    }
}

/// The shape of an object that is to be a message of a kind.
fn shape_in<O: Object>(kind: Kind, object: &O) -> Shape
    ensures { result ≡ shape_in kind (O.value object.now) }
{
    match (kind, object.at(Key::TxInf)) {
        (Kind::Camt056, Found::NoText | Found::Text(_)) => Shape::Listed,
        _ => Shape::Flat(kind),
    }
}

/// The elements that were read, in memory of their own.
fn boxed<T: Drop>(alloc: Global, elements: T) -> Result<Boxed<T>, JsonFault>
    ensures { GivesWithMemory result (Ok elements) }
{
    match Boxed::new(alloc, elements) {
        Ok(elements) => Ok(elements),
        Err(_) => Err(JsonFault::Memory),
    }
}

/// The elements of a message of a kind.
fn read_draft<O: Object>(alloc: Global, kind: Kind, object: &O) -> Result<Draft, JsonFault>
    ensures { GivesWithMemory result (draft_in kind (O.value object.now)) }
{
    match kind {
        Kind::Pacs008 => {
            let elements = credit_transfer::read(alloc, object)?;
            Ok(Draft::CreditTransfer(boxed(alloc, elements)?))
        }
        Kind::Pacs002 => {
            let elements = status_report::read(alloc, object)?;
            Ok(Draft::StatusReport(boxed(alloc, elements)?))
        }
        Kind::Pacs028 => {
            let elements = status_request::read(alloc, object)?;
            Ok(Draft::StatusRequest(boxed(alloc, elements)?))
        }
        Kind::Camt056 => {
            let elements = cancellation_request::read(alloc, object)?;
            Ok(Draft::CancellationRequest(boxed(alloc, elements)?))
        }
        Kind::Pacs004 => {
            let elements = payment_return::read(alloc, object)?;
            Ok(Draft::PaymentReturn(boxed(alloc, elements)?))
        }
        Kind::Camt029 => {
            let elements = resolution::read(alloc, object)?;
            Ok(Draft::Resolution(boxed(alloc, elements)?))
        }
    }
}

/// The message of elements that follow the rules of their kind.
fn keeping_rules(elements: Draft) -> Result<Message, JsonFault>
    ensures read { GivesWithMemory result (follows_unless (first_broken_rule elements) elements) }
    ensures memory { IfErr result (λ refusal. refusal ≢ fault.Memory) }
{
    match Message::of(elements) {
        Ok(message) => Ok(message),
        Err(fault) => Err(JsonFault::Rule(fault)),
    }
}

/// The message of the elements that were read of an object: it has no extra key, and then they follow the rules.
fn message_of(
    alloc: Global,
    shape: Shape,
    object: &Map<String, Value>,
    elements: Draft,
) -> Result<Message, JsonFault>
    ensures { GivesWithMemory result (message_in_whole shape (members_view object.now.entries) elements) }
{
    refuse_extra(alloc, shape, object)?;
    keeping_rules(elements)
}

/// The message of which an object is a form.
#[tactic(auto, unfolding(crate::specs::Reading::object_in))]
fn read_object(alloc: Global, object: &Value) -> Result<Message, JsonFault>
    ensures { GivesWithMemory result (object_in (view object.now)) }
{
    let Some(members) = object.as_object() else {
        return Err(JsonFault::NotObject);
    };
    let Some(kind) = kind_in(object) else {
        return Err(JsonFault::UnknownKind);
    };
    let shape = shape_in(kind, object);
    let elements = read_draft(alloc, kind, object)?;
    message_of(alloc, shape, members, elements)
}

/// The message of an object that was read token by token; none if it has a key of another kind.
#[tactic(auto, unfolding(crate::specs::Reading::object_in))]
fn read_plain(alloc: Global, object: &PlainMessage<'_>) -> Result<Option<Message>, JsonFault>
    ensures { GivesOrLeaves result (object_in (message_object object.now)) }
{
    let Some(kind) = kind_in(object) else {
        return Err(JsonFault::UnknownKind);
    };
    let elements = read_draft(alloc, kind, object)?;
    if !object.has_keys_in(shape_in(kind, object)) {
        return Ok(None);
    }
    match keeping_rules(elements) {
        Ok(message) => Ok(Some(message)),
        Err(fault) => Err(fault),
    }
}

/// The message of a text, read by way of a JSON value.
fn read_value(alloc: Global, text: &str) -> Result<Message, JsonFault>
    ensures { GivesWithMemory result (value_in (read text.now)) }
{
    match Value::from_str(alloc, text) {
        Ok(value) => read_object(alloc, &value),
        Err(error) if error.is_memory() => Err(JsonFault::Memory),
        Err(_) => Err(JsonFault::NotJson),
    }
}

/// Reads messages one after another, and keeps its working memory from each to the next.
#[derive(Drop)]
pub struct MessageReader {
    alloc: Global,
    scratch: Scratch,
}

impl MessageReader {
    /// A reader that holds no memory yet.
    pub fn new(alloc: Global) -> MessageReader {
        MessageReader {
            alloc,
            scratch: Scratch::new(alloc),
        }
    }

    /// The message of a text whose members are texts at keys of its kind, and maybe one list at `TxInf` of objects whose
    /// members are texts at keys of a transaction; none for another text.
    fn read_texts(&mut self, text: &str) -> Result<Option<Message>, JsonFault>
        ensures { GivesOrLeaves result (value_in (read text.now)) }
    {
        match plain_message::read(self.alloc, text, &mut self.scratch) {
            Ok(Some(object)) => read_plain(self.alloc, &object),
            Ok(None) => Ok(None),
            Err(_) => Err(JsonFault::Memory),
        }
    }

    /// The message of a text.
    fn read_text(&mut self, text: &str) -> Result<Message, JsonFault>
        ensures { GivesWithMemory result (value_in (read text.now)) }
    {
        match self.read_texts(text) {
            Ok(Some(message)) => Ok(message),
            Ok(None) => read_value(self.alloc, text),
            Err(fault) => Err(fault),
        }
    }

    /// As [`read_message`]. The reader's memory grows to the longest text that it has read. After an error it reads on as
    /// before.
    pub fn read(&mut self, bytes: &[u8]) -> Result<Message, JsonFault>
        ensures { GivesWithMemory result (message_in bytes.now) }
    {
        match str::from_utf8(bytes) {
            Ok(text) => self.read_text(text),
            Err(_) => Err(JsonFault::NotJson),
        }
    }
}

/// Reads the bytes of one JSON object as the message of which it is a form. Of two equal keys the last counts.
/// Error: the first reason why the object is a form of no message (31 to 38, 46, 56), or `Memory` (30).
/// O(n log n) for n bytes. A [`MessageReader`] reads many messages in less time.
pub fn read_message(alloc: Global, bytes: &[u8]) -> Result<Message, JsonFault>
    ensures { GivesWithMemory result (message_in bytes.now) }
{
    MessageReader::new(alloc).read(bytes)
}
