//! One key of an object: read as an element, and written.
ghost use Rattle.std.specs.Prelude.{Some, OnOk, option_map};
ghost use Rattle.sct_json.specs.Reading.{GivesWhere, required, optional, text_as};
ghost use Rattle.sct_json.specs.Line.{with_member, Writes};
ghost use Rattle.sct_json.specs.Writing.{ReadsBack, MayReadBack};

use crate::elements::Element;
use crate::faults::JsonFault;
use crate::keys::Key;
use crate::object::{Found, Keyed};
use json::Writer;
use sct_element::ElementFault;
use std::alloc::{AllocError, Global};

/// The element that a key's text is read as.
fn text_as<E: Element>(alloc: Global, key: Key, text: &str) -> Result<E, JsonFault>
    ensures { GivesWhere E.takes_memory result (text_as E.reads E.refusal key (Some text.now)) }
{
    match E::read_element(alloc, text) {
        Ok(element) => Ok(element),
        Err(ElementFault::Memory) => Err(JsonFault::Memory),
        Err(fault) => Err(JsonFault::Element(key, fault)),
    }
}

/// The element at a key that each message of the kind has.
#[tactic(auto, unfolding(crate::specs::Reading::required))]
pub(crate) fn required<E: Element, O: Keyed>(
    alloc: Global,
    key: Key,
    object: &O,
) -> Result<E, JsonFault>
    ensures { GivesWhere E.takes_memory result (required E.reads E.refusal key (O.value object.now)) }
{
    match object.at(key) {
        Found::Text(text) => text_as(alloc, key, text),
        Found::NoText => Err(JsonFault::NotText(key)),
        Found::Nothing => Err(JsonFault::Missing(key)),
    }
}

/// The element at a key that may be absent.
#[tactic(auto, unfolding(crate::specs::Reading::optional))]
pub(crate) fn optional<E: Element, O: Keyed>(
    alloc: Global,
    key: Key,
    object: &O,
) -> Result<Option<E>, JsonFault>
    ensures { GivesWhere E.takes_memory result (optional E.reads E.refusal key (O.value object.now)) }
{
    match object.at(key) {
        Found::Text(text) => {
            let element = text_as(alloc, key, text)?;
            Ok(Some(element))
        }
        Found::NoText => Err(JsonFault::NotText(key)),
        Found::Nothing => Ok(None),
    }
}

/// Writes an element at its key.
pub(crate) fn put<E: Element>(key: Key, element: &E, out: &mut Writer) -> Result<(), AllocError>
    ensures { OnOk result (Writes (with_member key (Some (E.written element.now))) out.old out.new) }
{
    out.key(key.text())?;
    element.put(out)?;
    Ok(())
}

/// Writes an element at its key, or nothing if the element is absent.
pub(crate) fn put_optional<E: Element>(
    key: Key,
    element: &Option<E>,
    out: &mut Writer,
) -> Result<(), AllocError>
    ensures { OnOk result
        (Writes (with_member key (option_map E.written element.now)) out.old out.new) }
{
    match element {
        Some(element) => put(key, element, out),
        None => Ok(()),
    }
}

/// A law: the written form of an element is read as the element.
pub(crate) fn reads_back<E: Element>(element: &E)
    ensures { ReadsBack E.reads E.written element.now }
{
    element.reads_back();
}

/// A law: the written form of an element that is present is read as the element.
pub(crate) fn may_read_back<E: Element>(element: &Option<E>)
    ensures { MayReadBack E.reads E.written element.now }
{
    if let Some(element) = element {
        element.reads_back();
    }
}
