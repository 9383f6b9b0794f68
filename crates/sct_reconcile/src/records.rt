//! The records of a text, as `csv` reads them, and the elements of their fields.
ghost use Rattle.std.specs.Prelude.{◌≡◌, map, IfOk, option_map};
ghost use Rattle.csv.specs.Records.{field_at, fields_of};
ghost use Rattle.sct_element.specs.Bank.{written_bic};
ghost use Rattle.sct_element.specs.Date.{written_day};
ghost use Rattle.sct_element.specs.Identification.{written_identification};
ghost use Rattle.sct_reconcile.specs.Lists.{field_text, read_by, records_of};
ghost use Rattle.sct_reconcile.specs.Turns.{field_or};

use csv::{ByteRecord, Error, ReaderBuilder};
use sct_element::{Bic, Day, Id35, read_bic, read_day, read_identification};
use std::alloc::Global;
use std::str;

/// The records of a text. They may have different numbers of fields.
pub(crate) fn all_records(alloc: Global, text: &[u8]) -> Result<Vec<ByteRecord>, Error>
    ensures { IfOk result (λ records. map fields_of records.items ≡ records_of text.now) }
{
    let reader = ReaderBuilder::new()
        .has_headers(false)
        .flexible(true)
        .from_reader(alloc, text);
    let mut records = Vec::new(alloc);
    for record in reader.into_byte_records() {
        if records.push(record?).is_err() {
            return Err(Error::out_of_memory());
        }
    }
    Ok(records)
}

/// A field as text, or none if it is not UTF-8. O(bytes of the field).
pub(crate) fn text_of(field: &[u8]) -> Option<&str>
    ensures { option_map (λ s. s.now) result ≡ field_text field.now }
{
    match str::from_utf8(field) {
        Ok(text) => Some(text),
        Err(_) => None,
    }
}

/// The field at a place, from 0; empty past the last field.
pub(crate) fn field(row: &ByteRecord, at: usize) -> &[u8]
    ensures { result.now ≡ field_or (field_at (fields_of row.now) at) }
{
    match row.get(at) {
        Some(field) => field,
        None => &[],
    }
}

/// A bank, or none if the text is not a BIC. O(1).
pub fn bank_of(text: &[u8]) -> Option<Bic>
    ensures { result ≡ read_by written_bic text.now }
{
    read_bic(text_of(text)?).ok()
}

/// A settlement day, or none if the text is not a date. O(1).
pub fn day_of(text: &[u8]) -> Option<Day>
    ensures { result ≡ read_by written_day text.now }
{
    read_day(text_of(text)?).ok()
}

/// An identification of 1 to 35 characters, or none if the text is not one. O(1).
pub fn identification_of(text: &[u8]) -> Option<Id35>
    ensures { result ≡ read_by written_identification text.now }
{
    read_identification(text_of(text)?).ok()
}
