//! An object whose members are texts, but for a list at `TxInf` of objects of texts, read from a text token by token.
ghost use Rattle.std.specs.Prelude.{◌≡◌, ◌∷◌, Some, true, IfOk, IfSome};
ghost use Rattle.std.specs.Bool.{OnTrue};
ghost use Rattle.std.specs.List.{list_all};
ghost use Rattle.json.specs.Token.{end_object, end_array};
ghost use Rattle.serde_json.specs.Data.{Data, Members, no_members};
ghost use Rattle.serde_json.specs.Find.{get_member};
ghost use Rattle.serde_json.specs.Read.{read};
ghost use Rattle.sct_json.specs.Keys.{key_text, is_key_in};
ghost use Rattle.sct_json.specs.Objects.{IsFound, put_texts, put_listed, members_of, message_object, tokens_before, objects_before, listed_before, IsListBefore};
ghost use Rattle.sct_json.specs.Reading.{GivesItems, list_in, names_of};

use crate::faults::JsonFault;
use crate::keys::{Key, Shape};
use crate::object::{Found, Keyed, Object};
use crate::plain::{PlainObject, PlainTransaction, Texts, read_texts};
use crate::recall_list::read_plain_list;
use json::{Reader, Scratch, Token};
use sct_message::RecallTx;
use std::alloc::{AllocError, Global};

/// Room for the texts of a message with every key of its kind.
const ROOM: usize = 22;

/// Room for the texts of a transaction with every key.
const TRANSACTION_ROOM: usize = 10;

/// The most transactions that a message may have. A longer list is left to the JSON value.
const MOST: usize = 100;

/// The list at `TxInf`, and the texts after it.
#[derive(Drop)]
pub(crate) struct Listed<'a> {
    list: Vec<PlainTransaction<'a>>,
    after: PlainObject<'a>,
}

/// An object of texts, with at most one list, which is at `TxInf`.
#[derive(Drop)]
pub(crate) struct PlainMessage<'a> {
    before: PlainObject<'a>,
    listed: Option<Listed<'a>>,
}

impl<'a> Listed<'a> {
    /// What is at a key of an object with these texts before the list.
    fn at<'b>(&'b self, key: Key, before: &'b PlainObject<'a>) -> Found<'b>
        ensures { IsFound result
            (get_member (key_text key) (put_listed (Some self.now) (put_texts before.now no_members))) }
    {
        match self.after.text_at(key) {
            Some(text) => Found::Text(text),
            None if key.is(Key::TxInf) => Found::NoText,
            None => before.at(key),
        }
    }

    /// The transactions at `TxInf`.
    fn transactions(&self, alloc: Global) -> Result<Vec<RecallTx>, JsonFault>
        ensures { (before : Members) (list : Data)
            → get_member (key_text Key.TxInf) (put_listed (Some self.now) before) ≡ Some list
            → GivesItems result (list_in list) }
    {
        match self.after.text_at(Key::TxInf) {
            Some(_) => Err(JsonFault::BadTransactions(0)),
            None => read_plain_list(alloc, &self.list),
        }
    }
}

impl Keyed for PlainMessage<'_> {
    ghost value = { message_object };

    fn at(&self, key: Key) -> Found<'_> {
        match &self.listed {
            None => self.before.at(key),
            Some(listed) => listed.at(key, &self.before),
        }
    }
}

impl Object for PlainMessage<'_> {
    fn transactions(&self, alloc: Global) -> Result<Vec<RecallTx>, JsonFault> {
        match &self.listed {
            None => Err(JsonFault::BadTransactions(0)),
            Some(listed) => listed.transactions(alloc),
        }
    }
}

/// Whether a shape has `TxInf` and the keys of the texts after the list.
fn has_keys_from(listed: &Option<Listed<'_>>, shape: Shape) -> bool
    ensures { OnTrue result ((before : Members) → list_all (is_key_in shape) (names_of before) ≡ true
        → list_all (is_key_in shape) (names_of (put_listed listed.now before)) ≡ true) }
{
    match listed {
        None => true,
        Some(listed) => match shape {
            Shape::Listed => listed.after.has_keys_in(Shape::Listed),
            _ => false,
        },
    }
}

impl PlainMessage<'_> {
    /// Whether the object has keys of a shape alone.
    pub(crate) fn has_keys_in(&self, shape: Shape) -> bool
        ensures { OnTrue result (list_all (is_key_in shape) (names_of (members_of self.now)) ≡ true) }
    {
        self.before.has_keys_in(shape) && has_keys_from(&self.listed, shape)
    }
}

/// The next transaction up to its end; none if it is no object of texts at keys of a transaction.
fn read_transaction<'a>(
    alloc: Global,
    reader: &mut Reader<'a>,
) -> Result<Option<PlainTransaction<'a>>, AllocError>
    ensures { IfOk result (λ found. IfSome found (λ transaction.
        reader.old ≡ tokens_before transaction (end_object ∷ reader.new))) }
{
    match read_texts(alloc, TRANSACTION_ROOM, reader)? {
        Texts::Closed(object) => Ok(PlainTransaction::of(object)),
        _ => Ok(None),
    }
}

/// The transactions up to the end of the list; none if they are more than a message has, or if one is no transaction.
fn read_list<'a>(
    alloc: Global,
    reader: &mut Reader<'a>,
) -> Result<Option<Vec<PlainTransaction<'a>>>, AllocError>
    ensures { IfOk result (λ found. IfSome found (λ list.
        reader.old ≡ objects_before list.items (end_array ∷ reader.new))) }
{
    let mut list = Vec::new(alloc);
    while list.len() <= MOST {
        match reader.next() {
            Some(Token::BeginObject) => {}
            Some(Token::EndArray) => return Ok(Some(list)),
            _ => return Ok(None),
        }
        let Some(transaction) = read_transaction(alloc, reader)? else {
            return Ok(None);
        };
        list.push(transaction)?;
    }
    Ok(None)
}

/// The list and the texts after it, up to the end of the object.
fn read_listed<'a>(alloc: Global, reader: &mut Reader<'a>) -> Result<Option<Listed<'a>>, AllocError>
    ensures { IfOk result (λ found. IfSome found (λ listed. IsListBefore reader.old listed reader.new)) }
{
    let Some(list) = read_list(alloc, reader)? else {
        return Ok(None);
    };
    match read_texts(alloc, 0, reader)? {
        Texts::Closed(after) => Ok(Some(Listed { list, after })),
        _ => Ok(None),
    }
}

/// The members of an object up to its end; none if a member is neither a text nor the one list.
fn read_members<'a>(
    alloc: Global,
    reader: &mut Reader<'a>,
) -> Result<Option<PlainMessage<'a>>, AllocError>
    ensures { IfOk result (λ found. IfSome found (λ message.
        reader.old ≡ tokens_before message.before (listed_before message.listed (end_object ∷ reader.new)))) }
{
    match read_texts(alloc, ROOM, reader)? {
        Texts::Closed(before) => Ok(Some(PlainMessage {
            before,
            listed: None,
        })),
        Texts::Before(before) => match read_listed(alloc, reader)? {
            Some(listed) => Ok(Some(PlainMessage {
                before,
                listed: Some(listed),
            })),
            None => Ok(None),
        },
        Texts::Other => Ok(None),
    }
}

/// The object that a text is; none if it has other members. An error is out of memory.
pub(crate) fn read<'a>(
    alloc: Global,
    text: &'a str,
    scratch: &'a mut Scratch,
) -> Result<Option<PlainMessage<'a>>, AllocError>
    ensures { IfOk result (λ found. IfSome found (λ message.
        read text.now ≡ Some (message_object message))) }
{
    let mut reader = Reader::new(text, scratch)?;
    let Some(Token::BeginObject) = reader.next() else {
        return Ok(None);
    };
    let Some(message) = read_members(alloc, &mut reader)? else {
        return Ok(None);
    };
    match reader.next() {
        None => Ok(Some(message)),
        Some(_) => Ok(None),
    }
}
