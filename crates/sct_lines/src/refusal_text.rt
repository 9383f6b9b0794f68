//! The text of the reason why a line is refused.
ghost use Rattle.std.specs.Prelude.{◌≡◌, ◌++◌, IfOk, string_bytes};
ghost use Rattle.serde_json.specs.Data.{string};
ghost use Rattle.serde_json.specs.Written.{compact_text};
ghost use Rattle.sct_lines.specs.Lines.{key_fault_text, json_fault_text};

use crate::refusals::RefusalReason;
use sct_json::{ExtraKey, JsonFault, KeyFault};
use serde_json::Value;
use std::alloc::{AllocError, Global};
use std::fmt::Write;

// The key as a JSON text, with its quotes.
fn quoted(alloc: Global, key: &ExtraKey) -> Result<String, AllocError>
    ensures { IfOk result (λ text. string_bytes text ≡ compact_text (string key.now)) }
{
    let key = String::from_str(alloc, key.as_str())?;
    Value::String(key).to_string(alloc)
}

/// Appends why an element of a list is refused: the number of the fault and its arguments, with a space between each
/// two.
#[tactic(auto, unfolding(crate::specs::Lines::key_fault_text))]
fn push_key_fault(alloc: Global, text: &mut String, fault: &KeyFault) -> Result<(), AllocError>
    ensures { IfOk result (λ _. string_bytes text.new ≡ string_bytes text.old ++ key_fault_text fault.now) }
{
    match fault {
        KeyFault::Missing(key) => write!(text, "34 {}", key.text()),
        KeyFault::NotText(key) => write!(text, "35 {}", key.text()),
        KeyFault::Element(key, fault) => write!(text, "36 {} {}", key.text(), fault.number()),
        KeyFault::Extra(key) => {
            let key = quoted(alloc, key)?;
            write!(text, "37 {}", key.as_str())
        }
    }
}

/// Appends why a line is refused: the number of the fault and its arguments, with a space between each two. The fault of
/// an element of a list follows the element's place.
#[tactic(auto, unfolding(crate::specs::Lines::json_fault_text))]
pub fn push_json_fault(
    alloc: Global,
    text: &mut String,
    fault: &JsonFault,
) -> Result<(), AllocError>
    ensures { IfOk result (λ _. string_bytes text.new ≡ string_bytes text.old ++ json_fault_text fault.now) }
{
    match fault {
        JsonFault::Memory => text.push_str("30"),
        JsonFault::NotJson => text.push_str("31"),
        JsonFault::NotObject => text.push_str("32"),
        JsonFault::UnknownKind => text.push_str("33"),
        JsonFault::Missing(key) => write!(text, "34 {}", key.text()),
        JsonFault::NotText(key) => write!(text, "35 {}", key.text()),
        JsonFault::Element(key, fault) => write!(text, "36 {} {}", key.text(), fault.number()),
        JsonFault::Extra(key) => {
            let key = quoted(alloc, key)?;
            write!(text, "37 {}", key.as_str())
        }
        JsonFault::Rule(fault) => write!(text, "38 {}", fault.number()),
        JsonFault::BadTransactions(place) => write!(text, "46 {place}"),
        JsonFault::At(place, fault) => {
            write!(text, "56 {place} ")?;
            push_key_fault(alloc, text, fault)
        }
    }
}

impl RefusalReason for JsonFault {
    ghost reason_text = { json_fault_text };

    fn push_text(&self, alloc: Global, text: &mut String) -> Result<(), AllocError> {
        push_json_fault(alloc, text, self)
    }
}
