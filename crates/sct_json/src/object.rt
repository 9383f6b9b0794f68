//! An object as its readers see it: what is at a key, however the object is held.
ghost use Rattle.std.specs.Prelude.{◌≡◌, Some, map, option_map, option_and_then};
ghost use Rattle.serde_json.specs.Data.{Data};
ghost use Rattle.serde_json.specs.Find.{get};
ghost use Rattle.serde_json.specs.View.{view};
ghost use Rattle.sct_json.specs.Keys.{key_text};
ghost use Rattle.sct_json.specs.Reading.{GivesItems, items_of_list, list_in};
ghost use Rattle.sct_json.specs.Objects.{IsFound};

use crate::faults::JsonFault;
use crate::keys::Key;
use crate::recall_list::read_list;
use sct_message::RecallTx;
use serde_json::Value;
use std::alloc::Global;

/// What an object has at a key.
#[derive(Clone, Copy, Drop)]
pub(crate) enum Found<'a> {
    /// The object has no such key.
    Nothing,
    /// The value is not a text.
    NoText,
    /// The value is this text.
    Text(&'a str),
}

/// An object that is read key by key.
pub(crate) trait Keyed {
    /// The JSON value that the object is.
    ghost value: { Self → Data };

    /// What is at a key. Of two equal keys the last counts.
    fn at(&self, key: Key) -> Found<'_>
        ensures { IsFound result (get (key_text key) (value self.now)) };
}

/// An object that may be a message.
pub(crate) trait Object: Keyed {
    /// The transactions at `TxInf`, if something is there.
    fn transactions(&self, alloc: Global) -> Result<Vec<RecallTx>, JsonFault>
        ensures { (list : Data) → get (key_text Key.TxInf) (Self.value self.now) ≡ Some list
            → GivesItems result (list_in list) };
}

/// The elements of the list at a key; none if there is no list.
fn items(object: &Value, key: Key) -> Option<&[Value]>
    ensures { option_map (λ items. map view items.now) result
        ≡ option_and_then items_of_list (get (key_text key) (view object.now)) }
{
    let list = object.get(key.text())?;
    Some(list.as_array()?.as_slice())
}

impl Keyed for Value {
    ghost value = { view };

    fn at(&self, key: Key) -> Found<'_> {
        match self.get(key.text()) {
            None => Found::Nothing,
            Some(value) => match value.as_str() {
                None => Found::NoText,
                Some(text) => Found::Text(text),
            },
        }
    }
}

impl Object for Value {
    fn transactions(&self, alloc: Global) -> Result<Vec<RecallTx>, JsonFault> {
        read_list(alloc, items(self, Key::TxInf))
    }
}
