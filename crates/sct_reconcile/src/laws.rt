//! Laws of lists and reports. Each law is the contract of a function with an empty body.

ghost use Rattle.sct_reconcile.specs.Laws.{EqualSetsHaveEqualReports, ListedTransfersAreTold, ListsAreExact};
ghost use Rattle.sct_reconcile.specs.Laws.{ListsChangeNoOthers, MatchedExactly, OthersAreOfTheBank};
ghost use Rattle.sct_reconcile.specs.Laws.{ReportsReadBack, RowsAscend};

/// A list is read exactly if its records are a header with rows below it. If not, the
/// refusal names the first record that is neither.
pub fn lists_are_exact()
    ensures { ListsAreExact }
{}

/// Every transfer of the list has its row.
pub fn listed_transfers_are_told()
    ensures { ListedTransfersAreTold }
{}

/// The rows ascend by transfer, one for each.
pub fn rows_ascend()
    ensures { RowsAscend }
{}

/// A transfer has a row exactly if it is listed, or is a transfer of the bank whose instruction has no other day.
pub fn others_are_of_the_bank()
    ensures { OthersAreOfTheBank }
{}

/// A transfer is matched exactly if it is listed once, is not contradicted, is
/// instructed, and the amounts and the words agree.
pub fn matched_exactly()
    ensures { MatchedExactly }
{}

/// A list does not change the rows of transfers that it does not name.
pub fn lists_change_no_others()
    ensures { ListsChangeNoOthers }
{}

/// Sets that hold the same messages have the same report, byte for byte.
pub fn equal_sets_have_equal_reports()
    ensures { EqualSetsHaveEqualReports }
{}

/// The text of a report is read back as its header and the fields of its rows.
pub fn reports_read_back()
    ensures { ReportsReadBack }
{}
