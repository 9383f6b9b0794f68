//! A participant's list.
ghost use Rattle.std.specs.Prelude.{◌≡◌, ◌+◌, ◌<◌, ◌^◌, map, drop};
ghost use Rattle.csv.specs.Records.{fields_of};
ghost use Rattle.sct_element.specs.Money.{cents_of};
ghost use Rattle.sct_reconcile.specs.Lists.{GivesOrNoMemory, are_names, is_header, list_of, listed_rows_in, read_by};
ghost use Rattle.sct_reconcile.specs.Lists.{row_in, row_of, rows_below};
ghost use Rattle.sct_reconcile.specs.Turns.{GivesRows};
ghost use Rattle.sct_reconcile.specs.declared.fault.ReconcileFault.TheVariants as fault;
ghost use Rattle.sct_reconcile.specs.Words.{list_status_of};

use crate::fault::ReconcileFault;
use crate::records::{all_records, bank_of, field, identification_of, text_of};
use crate::rows::{ListRow, ListedRow};
use crate::words::ListStatus;
use csv::ByteRecord;
use sct_element::Amount;
use sct_message::TransferKey;
use std::alloc::{AllocError, Global};
use std::marker::Model;

/// The list of a participant for a settlement day: what it says of each transfer that it names.
#[derive(Debug, Drop)]
pub struct List {
    rows: Vec<ListedRow>,
}

impl Model for List {
    ghost use Rattle.std.specs.Prelude.{List as Rows};
    ghost use Rattle.sct_reconcile.specs.declared.rows.ListedRow.{ListedRow as Row};

    ghost Value = { Rows Row };

    ghost view = { λ l. l.rows.items };
}

impl List {
    /// Reads a list. It is CSV with the header `DbtrAgt,TxId,Amt,Sts` as its first record. Each further record has a
    /// bank, an identification, an amount, and one of the words ACCEPTED, REJECTED, RETURNED, PENDING and INVESTIGATED.
    /// Errors:
    /// - `BadList` (48) with the number of the first bad record, counted from 1 with the
    ///   header; 1 for a text without records;
    /// - `Memory` (49), which also reports any fault of `csv`.
    ///
    /// O(bytes of the text).
    pub fn read(alloc: Global, text: &[u8]) -> Result<List, ReconcileFault>
        ensures { GivesOrNoMemory result (list_of text.now) }
    {
        let records = all_records(alloc, text)?;
        let rows = rows_in(alloc, &records)?;
        Ok(List { rows })
    }

    /// The rows, in the order of the list.
    pub fn rows(&self) -> &[ListedRow]
        ensures { result.now ≡ self.now }
    {
        &self.rows
    }
}

fn read_amount(field: &[u8]) -> Option<Amount>
    ensures { result ≡ read_by cents_of field.now }
{
    Amount::read(text_of(field)?).ok()
}

fn read_status(field: &[u8]) -> Option<ListStatus>
    ensures { result ≡ read_by list_status_of field.now }
{
    ListStatus::read(text_of(field)?)
}

// The row that four fields are, if each is valid.
fn read_fields(bank: &[u8], tx: &[u8], amount: &[u8], status: &[u8]) -> Option<ListedRow>
    ensures { result ≡ row_in bank.now tx.now amount.now status.now }
{
    let debtor_agent = bank_of(bank)?;
    let tx = identification_of(tx)?;
    let amount = read_amount(amount)?;
    let status = read_status(status)?;
    Some(ListedRow {
        key: TransferKey { debtor_agent, tx },
        listed: ListRow { amount, status },
    })
}

// The row that a record is, if it is a row of a list.
fn read_row(row: &ByteRecord) -> Option<ListedRow>
    ensures { result ≡ row_of (fields_of row.now) }
{
    if row.len() != 4 {
        return None;
    }
    read_fields(field(row, 0), field(row, 1), field(row, 2), field(row, 3))
}

// Whether four fields are the names of the columns.
fn are_names(bank: &[u8], tx: &[u8], amount: &[u8], status: &[u8]) -> bool
    ensures { result ≡ are_names bank.now tx.now amount.now status.now }
{
    bank == b"DbtrAgt".as_slice()
        && tx == b"TxId".as_slice()
        && amount == b"Amt".as_slice()
        && status == b"Sts".as_slice()
}

// Whether a record is the header of a list.
fn is_header(row: &ByteRecord) -> bool
    ensures { result ≡ is_header (fields_of row.now) }
{
    if row.len() != 4 {
        return false;
    }
    are_names(field(row, 0), field(row, 1), field(row, 2), field(row, 3))
}

// The refusal of the record at an index, from 0. Records are counted from 1.
fn bad_record(index: usize) -> ReconcileFault
    requires { index + 1 < 2 ^ 64 }
    ensures { result ≡ fault.BadList (index + 1) }
{
    ReconcileFault::BadList(index as u64 + 1)
}

// The rows of the records after the first.
fn rows_after_first(alloc: Global, records: &[ByteRecord]) -> Result<Vec<ListedRow>, ReconcileFault>
    ensures { GivesRows result (rows_below 2 (drop 1 (map fields_of records.now))) }
{
    let mut rows = Vec::new(alloc);
    for at in 1..records.len() {
        let Some(row) = read_row(&records[at]) else {
            return Err(bad_record(at));
        };
        rows.push(row).map_err(AllocError::from)?;
    }
    Ok(rows)
}

// The rows of all records. The first record must be the header.
fn rows_in(alloc: Global, records: &[ByteRecord]) -> Result<Vec<ListedRow>, ReconcileFault>
    ensures { GivesRows result (listed_rows_in (map fields_of records.now)) }
{
    let Some(first) = records.first() else {
        return Err(ReconcileFault::BadList(1));
    };
    if !is_header(first) {
        return Err(ReconcileFault::BadList(1));
    }
    rows_after_first(alloc, records)
}
