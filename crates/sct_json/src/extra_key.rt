//! The extra key for which an object is refused. The names of the object and the keys of its shape are both sorted by
//! their bytes, so one walk along both finds the key.
ghost use Rattle.std.specs.Prelude.{◌≡◌, find, not, is_some, string_bytes};
ghost use Rattle.std.specs.Option.{option_copied};
ghost use Rattle.std.specs.BTreeMap.{keys};
ghost use Rattle.serde_json.specs.View.{members_view};
ghost use Rattle.sct_json.specs.KeyLookups.{keys_from, is_first};
ghost use Rattle.sct_json.specs.Keys.{is_key_in};
ghost use Rattle.sct_json.specs.Reading.{GivesWhere, first_extra, passes_unless};

use crate::faults::{ExtraKey, JsonFault};
use crate::keys::{Key, Shape, keys_in};
use serde_json::{Map, Value};
use std::alloc::Global;

/// The keys from the first that is not below a name, by bytes.
fn keys_from<'a>(keys: &'a [Key], name: &str) -> &'a [Key]
    ensures { result.now ≡ keys_from name.now keys.now }
{
    let mut rest = keys;
    while let [key, later @ ..] = rest
        && key.text() < name
    {
        rest = later;
    }
    rest
}

/// Whether a name is the first of keys.
fn is_first(name: &str, keys: &[Key]) -> bool
    ensures { result ≡ is_first name.now keys.now }
{
    matches!(keys, [key, ..] if name == key.text())
}

/// The first name of an object, in the order of the names' bytes, that is no key of a shape.
fn first_other(shape: Shape, object: &Map<String, Value>) -> Option<&String>
    ensures { option_copied result
        ≡ find (λ name. not (is_key_in shape (string_bytes name))) (keys object.now) }
{
    let mut keys = keys_in(shape);
    for name in object.keys() {
        keys = keys_from(keys, name.as_str());
        if !is_first(name.as_str(), keys) {
            return Some(name);
        }
    }
    None
}

/// Refuses an object that has a key outside its shape.
#[tactic(auto, using(crate::proofs::Extra::first_extra_found))]
pub(crate) fn refuse_extra(
    alloc: Global,
    shape: Shape,
    object: &Map<String, Value>,
) -> Result<(), JsonFault>
    ensures { let extra = first_extra shape (members_view object.now.entries) in
        GivesWhere (is_some extra) result (passes_unless extra) }
{
    match first_other(shape, object) {
        None => Ok(()),
        Some(name) => match ExtraKey::of(alloc, name.as_str()) {
            Ok(extra) => Err(JsonFault::Extra(extra)),
            Err(_) => Err(JsonFault::Memory),
        },
    }
}
