//! Laws of reading and writing. Each law is the contract of a function that does nothing.
ghost use Rattle.std.specs.Prelude.{◌≡◌, ◌≢◌, ◌↔◌, ℕ, List, ◌∷◌, Some, Ok, Err, IsTrue};
ghost use Rattle.sct_json.specs.declared.faults.JsonFault.TheVariants as fault;
ghost use Rattle.sct_json.specs.declared.faults.KeyFault.{KeyFault};
ghost use Rattle.sct_json.specs.declared.faults.KeyFault.TheVariants as key_fault;
ghost use Rattle.serde_json.specs.Data.{Data, Members, object};
ghost use Rattle.serde_json.specs.Read.{read};
ghost use Rattle.serde_json.specs.Written.{compact_text};
ghost use Rattle.sct_message.specs.declared.rules.RuleFault.TheVariants.{WrongName};
ghost use Rattle.sct_message.specs.declared.draft.Draft.{Draft as Elements};
ghost use Rattle.sct_json.specs.Names.{NamesAscend, HasLeastExtraKey, HasLeastExtraKeyAt};
ghost use Rattle.sct_json.specs.Places.{HasList, IsNoListOfObjects, IsNoListOfTransactions};
ghost use Rattle.sct_json.specs.Reading.{object_in, message_in};
ghost use Rattle.sct_json.specs.Form.{IsFormOf, StandsFor};
ghost use Rattle.sct_json.specs.Writing.{written_text, has_no_line_feed};

use crate::writing::elements_read_back;
use sct_message::{Message, all_rules_hold_where_none_is_broken};

/// An object is read as a message exactly if it is a form of the message. A refused object is a form of no message.
pub fn an_object_is_read_where_it_is_a_form()
    ensures { (object : Data) (draft : Elements) → (object_in object ≡ Ok draft) ↔ IsFormOf object draft }
{
    all_rules_hold_where_none_is_broken();
}

/// The names of an object that was read ascend by their bytes, each once, and so do those of each object in it.
pub fn names_that_were_read_ascend()
    ensures { (bytes : List ℕ) (value : Data) → read bytes ≡ Some value → NamesAscend value }
{}

/// The extra key that a refusal names is the least by bytes of the keys of the object that its kind does not have. The
/// extra key that a refusal names for an element of `TxInf` is the least by bytes of the keys of the element at that place
/// that a transaction does not have.
pub fn the_extra_key_told_is_the_least()
    ensures of_object { (bytes name : List ℕ) → message_in bytes ≡ Err (fault.Extra name)
        → HasLeastExtraKey bytes name }
    ensures of_element { (bytes : List ℕ) (place : ℕ) (name : List ℕ)
        → message_in bytes ≡ Err (fault.At place (key_fault.Extra name)) → HasLeastExtraKeyAt bytes place name }
{}

/// The place that a refusal of `TxInf` names is the first, from 1. If 46 names 0, `TxInf` is no list of 1 to 100 elements.
/// If 46 names another place, the element there is no object, and each element before it is one. If 56 names a place, each
/// element is an object, the element there is no transaction, and each element before it is one.
pub fn the_place_reported_is_the_first()
    ensures no_object { (bytes : List ℕ) (place : ℕ) → message_in bytes ≡ Err (fault.BadTransactions place)
        → HasList (λ list. IsNoListOfObjects list place) bytes }
    ensures no_transaction { (bytes : List ℕ) (place : ℕ) (why : KeyFault)
        → message_in bytes ≡ Err (fault.At place why) → HasList (λ list. IsNoListOfTransactions list place) bytes }
{}

/// No message is refused for its name (the rule fault 10): an object whose `MsgNmId` is no name of a kind is
/// refused before its rules are looked at.
pub fn no_message_is_refused_for_its_name()
    ensures { (bytes : List ℕ) → message_in bytes ≢ Err (fault.Rule WrongName) }
{}

/// Bytes are never read as `Memory` (30): out of memory is a fault of the call, and not of the bytes.
pub fn reading_never_wants_memory()
    ensures { (bytes : List ℕ) → message_in bytes ≢ Err fault.Memory }
{}

/// An object is a form of one message at most.
pub fn an_object_is_a_form_of_one_message()
    ensures { (object : Data) (left right : Elements)
        → IsFormOf object left → IsFormOf object right → left ≡ right }
{
    all_rules_hold_where_none_is_broken();
}

/// Bytes are read as a message exactly if they are the JSON text of a form of the message.
pub fn bytes_are_read_where_they_stand_for_a_form()
    ensures { (bytes : List ℕ) (draft : Elements)
        → (message_in bytes ≡ Ok draft) ↔ ((object : Data) × StandsFor bytes object × IsFormOf object draft) }
{
    all_rules_hold_where_none_is_broken();
}

/// The keys of each object of a written text ascend by their bytes, each once.
pub fn the_keys_of_a_written_text_ascend()
    ensures { (draft : Elements) → (members : Members)
        × (written_text draft ≡ compact_text (object members)) × NamesAscend (object members) }
{}

/// A written text is one line, and not a blank one: it has no line feed, and begins with `{` (byte 123).
pub fn a_written_text_is_one_line()
    ensures no_line_feed { (draft : Elements) → IsTrue (has_no_line_feed (written_text draft)) }
    ensures begins { (draft : Elements) → (rest : List ℕ) × (written_text draft ≡ 123 ∷ rest) }
{}

/// A text is written for one message alone: two messages with the same written text are the same message.
pub fn a_text_is_written_for_one_message(left: &Message, right: &Message)
    ensures { written_text left.now ≡ written_text right.now → left.now ≡ right.now }
{
    let left_elements = left.draft();
    let right_elements = right.draft();
    elements_read_back(left_elements);
    elements_read_back(right_elements);
}
