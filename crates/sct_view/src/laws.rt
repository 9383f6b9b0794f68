//! Laws of the answers, for all messages. Each law is the contract of a function with an empty body.

ghost use Rattle.sct_view.specs.Laws.{EqualSetsHaveEqualTexts, MoneyIsConserved, EachTransferIsCountedOnce, BanksHaveTotals, OrderOfBatchesDoesNotMatter};
ghost use Rattle.sct_view.specs.Touched.{BatchesTouchFew, TouchesAddUp, UntouchedTransfersStay};

/// Sets that hold the same messages have the same status text and the same totals text, byte for byte.
pub fn equal_sets_have_equal_texts()
    ensures { EqualSetsHaveEqualTexts }
{}

/// Over all banks, the transfers and cents sent are those received, and the cents returned to originator banks
/// are those returned by beneficiary banks.
pub fn money_is_conserved()
    ensures { MoneyIsConserved }
{}

/// Each transfer of an originator bank counts as exactly one of sent, rejected, waiting, missing and contradicted.
pub fn each_transfer_is_counted_once()
    ensures { EachTransferIsCountedOnce }
{}

/// The banks that are listed are those whose totals are not all zero.
pub fn banks_have_totals()
    ensures { BanksHaveTotals }
{}

/// Batches of messages may be applied in any order.
pub fn order_of_batches_does_not_matter()
    ensures { OrderOfBatchesDoesNotMatter }
{}

/// A transfer that a batch does not touch has the same messages, status, findings, recalls and shares as before.
pub fn untouched_transfers_stay()
    ensures { UntouchedTransfersStay }
{}

/// If each message is on at most n transfers, a batch touches at most 2n transfers for each fresh message.
pub fn batches_touch_few()
    ensures { BatchesTouchFew }
{}

/// Two batches that are applied in turn touch the transfers that they touch together.
pub fn touches_add_up()
    ensures { TouchesAddUp }
{}
