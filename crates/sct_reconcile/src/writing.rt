//! The text of a report, as `csv` writes it.
ghost use Rattle.std.specs.Prelude.{◌≡◌, ◌∷◌, List as Items, ℕ, [], map, IfOk, OnOk};
ghost use Rattle.sct_reconcile.specs.Reports.{amount_field, listed_amount_field, listed_status_field};
ghost use Rattle.sct_reconcile.specs.Reports.{csv_text, fields_of_row, report_header, report_text_of};
ghost use Rattle.sct_reconcile.specs.Writers.{Appends, AppendsRecord, HasWritten};

use crate::rows::{ListRow, ReportRow};
use arrayvec::ArrayString;
use csv::{Error, Writer, WriterBuilder};
use sct_element::Amount;
use std::alloc::Global;

// A writer that has written nothing.
fn start(alloc: Global) -> Writer<Vec<u8>>
    ensures { HasWritten result [] }
{
    WriterBuilder::new().from_writer(Vec::new(alloc))
}

// Writes a record.
fn write_fields(writer: &mut Writer<Vec<u8>>, fields: &[&[u8]]) -> Result<(), Error>
    ensures { OnOk result (AppendsRecord writer.old writer.new (map (λ f. f.now) fields.now)) }
{
    writer.write_fields(fields)
}

// The text that was written.
fn finish(writer: Writer<Vec<u8>>) -> Result<Vec<u8>, Error>
    ensures { IfOk result (λ v. (text : Items ℕ) → HasWritten writer text → v.items ≡ text) }
{
    match writer.into_inner() {
        Ok(text) => Ok(text),
        Err(refused) => Err(refused.into_error()),
    }
}

// The field of an amount, empty if there is none.
fn amount_field(amount: Option<Amount>) -> ArrayString<12>
    ensures { result.bytes ≡ amount_field amount }
{
    match amount {
        Some(amount) => amount.text(),
        None => ArrayString::new(),
    }
}

// The field of the amount in a list, empty if the transfer is not listed exactly once.
fn listed_amount_field(listed: Option<ListRow>) -> ArrayString<12>
    ensures { result.bytes ≡ listed_amount_field listed }
{
    match listed {
        Some(listed) => listed.amount.text(),
        None => ArrayString::new(),
    }
}

// The field of the status in a list, empty if the transfer is not listed exactly once.
fn listed_status_field(listed: Option<ListRow>) -> &'static str
    ensures { result.now ≡ listed_status_field listed }
{
    match listed {
        Some(listed) => listed.status.text(),
        None => "",
    }
}

fn write_header(writer: &mut Writer<Vec<u8>>) -> Result<(), Error>
    ensures { OnOk result (AppendsRecord writer.old writer.new report_header) }
{
    let fields: [&[u8]; 7] = [
        b"DbtrAgt", b"TxId", b"Result", b"ListAmt", b"ListSts", b"Amt", b"Sts",
    ];
    write_fields(writer, &fields)
}

// Writes a record of seven fields.
fn write_seven<'a>(
    writer: &mut Writer<Vec<u8>>,
    bank: &'a [u8],
    tx: &'a [u8],
    verdict: &'a [u8],
    listed_amount: &'a [u8],
    listed_status: &'a [u8],
    amount: &'a [u8],
    status: &'a [u8],
) -> Result<(), Error>
    ensures { OnOk result (AppendsRecord writer.old writer.new
        (bank.now ∷ tx.now ∷ verdict.now ∷ listed_amount.now ∷ listed_status.now
        ∷ amount.now ∷ status.now ∷ [])) }
{
    let fields = [
        bank,
        tx,
        verdict,
        listed_amount,
        listed_status,
        amount,
        status,
    ];
    write_fields(writer, &fields)
}

fn write_row(writer: &mut Writer<Vec<u8>>, row: &ReportRow) -> Result<(), Error>
    ensures { OnOk result (AppendsRecord writer.old writer.new (fields_of_row row.now)) }
{
    let listed_amount = listed_amount_field(row.listed);
    let amount = amount_field(row.amount);
    write_seven(
        writer,
        row.key.debtor_agent.text().as_bytes(),
        row.key.tx.text().as_bytes(),
        row.verdict.text().as_bytes(),
        listed_amount.as_str().as_bytes(),
        listed_status_field(row.listed).as_bytes(),
        amount.as_str().as_bytes(),
        row.status.text().as_bytes(),
    )
}

fn write_rows(writer: &mut Writer<Vec<u8>>, rows: &[ReportRow]) -> Result<(), Error>
    ensures { OnOk result (Appends writer.old writer.new (csv_text (map fields_of_row rows.now))) }
{
    for row in rows {
        write_row(writer, row)?;
    }
    Ok(())
}

/// The text of a report of these rows.
#[tactic(auto, unfolding(crate::specs::Reports::report_text_of))]
pub(crate) fn written(alloc: Global, rows: &[ReportRow]) -> Result<Vec<u8>, Error>
    ensures { IfOk result (λ text. text.items ≡ report_text_of rows.now) }
{
    let mut writer = start(alloc);
    write_header(&mut writer)?;
    write_rows(&mut writer, rows)?;
    let text = finish(writer)?;
    Ok(text)
}
