//! An object whose members are all texts, read token by token. No JSON value is built.
ghost use Rattle.std.specs.Prelude.{◌≡◌, IsTrue, IfOk, IfSome, option_map};
ghost use Rattle.std.specs.List.{list_all};
ghost use Rattle.sct_json.specs.Keys.{key_text, is_key_among, is_key_in};
ghost use Rattle.sct_json.specs.Members.{texts_of};
ghost use Rattle.sct_json.specs.Objects.{object_of, last_text, IsNext, AreTexts};

use crate::keys::{Key, Shape, keys_in};
use crate::object::{Found, Keyed};
use json::{Reader, Token};
use std::alloc::{AllocError, Global};
use std::marker::Model;

/// A key and the text at it.
#[derive(Clone, Copy, Drop)]
pub(crate) struct Member<'a> {
    key: Key,
    text: &'a str,
}

/// An object whose members are all texts, in the order in which they are written.
#[derive(Drop)]
pub(crate) struct PlainObject<'a> {
    members: Vec<Member<'a>>,
}

impl<'a> Model for PlainObject<'a> {
    ghost use Rattle.std.specs.Prelude.{ℕ, List};
    ghost use Rattle.sct_json.specs.declared.keys.Key.{Key};

    ghost Value = { List (Key × List ℕ) };

    ghost use Rattle.sct_json.specs.Members.{texts_of};

    ghost view = { λ o. texts_of o.members.items };
}

/// The last text at a key.
fn last_text<'a>(members: &[Member<'a>], key: Key) -> Option<&'a str>
    ensures { option_map (λ text. text.now) result ≡ last_text (key_text key) (texts_of members.now) }
{
    let mut rest = members;
    while let [before @ .., member] = rest
        && !member.key.is(key)
    {
        rest = before;
    }
    Some(rest.last()?.text)
}

impl Keyed for PlainObject<'_> {
    ghost value = { object_of };

    fn at(&self, key: Key) -> Found<'_> {
        match self.text_at(key) {
            None => Found::Nothing,
            Some(text) => Found::Text(text),
        }
    }
}

/// Whether a key is one of others.
#[tactic(auto, unfolding(crate::specs::Keys::is_key_among))]
fn is_key_among(key: Key, others: &[Key]) -> bool
    ensures { result ≡ is_key_among others.now (key_text key) }
{
    others.iter().any(|other| other.is(key))
}

/// Whether each member is at one of some keys.
fn are_among(members: &[Member<'_>], keys: &[Key]) -> bool
    ensures { result ≡ list_all (λ member. is_key_among keys.now (key_text member.key)) members.now }
{
    members.iter().all(|member| is_key_among(member.key, keys))
}

impl<'a> PlainObject<'a> {
    /// The last text at a key; none if there is none.
    pub(crate) fn text_at(&self, key: Key) -> Option<&'a str>
        ensures { option_map (λ text. text.now) result ≡ last_text (key_text key) self.now }
    {
        last_text(&self.members, key)
    }

    /// Whether the object has keys of a shape alone.
    pub(crate) fn has_keys_in(&self, shape: Shape) -> bool
        ensures { result ≡ list_all (λ member. is_key_in shape (key_text member.0)) self.now }
    {
        are_among(&self.members, keys_in(shape))
    }
}

/// An object of texts at keys of a transaction.
#[derive(Drop)]
pub(crate) struct PlainTransaction<'a> {
    object: PlainObject<'a>,
}

impl<'a> Model for PlainTransaction<'a> {
    ghost use Rattle.std.specs.Prelude.{ℕ, List, IsTrue};
    ghost use Rattle.std.specs.List.{list_all};
    ghost use Rattle.sct_json.specs.declared.keys.Key.{Key};
    ghost use Rattle.sct_json.specs.declared.keys.Shape.TheVariants.{Transaction};
    ghost use Rattle.sct_json.specs.Keys.{key_text, is_key_in};

    ghost Value = { List (Key × List ℕ) };

    ghost view = { λ t. t.object };

    ghost invariant = { λ t. IsTrue (list_all (λ m. is_key_in Transaction (key_text m.0)) t.object) };
}

impl<'a> PlainTransaction<'a> {
    /// The transaction of an object; none if the object has another key.
    pub(crate) fn of(object: PlainObject<'a>) -> Option<Self>
        ensures { IfSome result (λ transaction. transaction ≡ object.entry) }
    {
        if !object.has_keys_in(Shape::Transaction) {
            return None;
        }
        Some(PlainTransaction { object })
    }

    /// The object.
    pub(crate) fn object(&self) -> &PlainObject<'a>
        ensures object { result.now ≡ self.now }
        ensures keys { IsTrue (list_all (λ member. is_key_in Shape.Transaction (key_text member.0)) result.now) }
    {
        &self.object
    }
}

/// What comes after a name among members.
#[derive(Drop)]
enum Next<'a> {
    /// A text. The name is its key.
    Text(Member<'a>),
    /// A list. The name is `TxInf`.
    List,
    /// Neither.
    Other,
}

/// What comes after a name.
fn read_next<'a>(name: &str, reader: &mut Reader<'a>) -> Next<'a>
    ensures { IsNext name.now reader.old result reader.new }
{
    let Some(key) = Key::of_text(name) else {
        return Next::Other;
    };
    match reader.next() {
        Some(Token::String(text)) => Next::Text(Member { key, text }),
        Some(Token::BeginArray) if key.is(Key::TxInf) => Next::List,
        _ => Next::Other,
    }
}

/// The texts of an object, up to what comes after them.
#[derive(Drop)]
pub(crate) enum Texts<'a> {
    /// The object ends after these.
    Closed(PlainObject<'a>),
    /// The list at `TxInf` begins after these.
    Before(PlainObject<'a>),
    /// Something else comes.
    Other,
}

/// Reads the members of an object that are texts, up to the end of the object or the begin of the list at `TxInf`. The
/// first allocation has room for this number of texts.
pub(crate) fn read_texts<'a>(
    alloc: Global,
    room: usize,
    reader: &mut Reader<'a>,
) -> Result<Texts<'a>, AllocError>
    ensures { IfOk result (λ texts. AreTexts reader.old texts reader.new) }
{
    let mut members = Vec::with_capacity(alloc, room)?;
    loop {
        let name = match reader.next() {
            Some(Token::Key(name)) => name,
            Some(Token::EndObject) => return Ok(Texts::Closed(PlainObject { members })),
            _ => return Ok(Texts::Other),
        };
        match read_next(name, reader) {
            Next::Text(member) => members.push(member)?,
            Next::List => return Ok(Texts::Before(PlainObject { members })),
            Next::Other => return Ok(Texts::Other),
        }
    }
}
