//! The rows of lists and reports, and those of a list filed by transfer.
ghost use Rattle.std.specs.Prelude.{◌≡◌, List as Rows, IfOk};
ghost use Rattle.sct_reconcile.specs.Filed.{IsFiled};
ghost use Rattle.sct_reconcile.specs.Reports.{listed_on};
ghost use Rattle.sct_reconcile.specs.declared.rows.ListedRow.{ListedRow as Row};

use crate::words::{ListStatus, Verdict};
use indexmap::IndexMap;
use sct_case::StatusWord;
use sct_element::Amount;
use sct_message::{TransferKey, keys_are_ordered};
use sct_set::buckets::{Bucket, file, items_at};
use std::alloc::{AllocError, Global};

/// What a list says of a transfer.
#[derive(Clone, Copy, Debug, PartialEq, Eq)]
pub struct ListRow {
    /// The amount, in cents.
    pub amount: Amount,
    /// The status, one of five words.
    pub status: ListStatus,
}

/// A row of a list.
#[derive(Debug, Drop, PartialEq, Eq)]
pub struct ListedRow {
    /// The transfer that the row is on.
    pub key: TransferKey,
    /// What the row says of the transfer.
    pub listed: ListRow,
}

/// A row of a report.
#[derive(Debug, Drop, PartialEq, Eq)]
pub struct ReportRow {
    /// The transfer.
    pub key: TransferKey,
    /// The result of the comparison.
    pub verdict: Verdict,
    /// What the list says, if exactly one row of the list is on the transfer.
    pub listed: Option<ListRow>,
    /// The amount of the instruction, in cents, if there is exactly one instruction.
    pub amount: Option<Amount>,
    /// The word of the status that the messages give the transfer.
    pub status: StatusWord,
}

/// What the rows of a list say of each transfer.
pub(crate) type Index = IndexMap<TransferKey, Bucket<ListRow>>;

/// The rows filed by transfer. Those of one transfer are in the order of the list.
pub(crate) fn by_transfer(alloc: Global, rows: &[ListedRow]) -> Result<Index, AllocError>
    ensures { IfOk result (λ index. IsFiled index rows.now) }
{
    keys_are_ordered();
    let mut index = IndexMap::new(alloc);
    for row in rows {
        file(alloc, &mut index, row.key.copy(), row.listed)?;
    }
    Ok(index)
}

/// What the rows on a transfer say, in the order of the list.
pub(crate) fn listed_on<'a>(index: &'a Index, key: &TransferKey) -> &'a [ListRow]
    ensures { (rows : Rows Row) → IsFiled index.now rows → result.now ≡ listed_on rows key.now }
{
    keys_are_ordered();
    items_at(index, key)
}
