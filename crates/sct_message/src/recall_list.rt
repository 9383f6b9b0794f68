//! The rules on the list of transactions of a camt.056.
ghost use Rattle.std.specs.Prelude.{◌≡◌, ◌<◌, Option, Some, length, codes};
ghost use Rattle.std.specs.List.{list_all, list_any};
ghost use Rattle.sct_element.specs.Text.{is_text};
ghost use Rattle.sct_message.specs.Kinds.{is_name_of};
ghost use Rattle.sct_message.specs.Recalls.{have_same_recall as share_recall};
ghost use Rattle.sct_message.specs.Neighbours.{recalls_next, repeats_next};
ghost use Rattle.sct_message.specs.Rules.{broken_by_transactions, repeats, is_right_count};

use crate::draft::{CancellationRequest, Original, RecallTx};
use crate::kinds::Kind;
use crate::rules::RuleFault;

/// Whether each transaction is in euro.
pub(crate) fn are_in_euro(txs: &[RecallTx]) -> bool
    ensures { result ≡ list_all (λ tx. is_text tx.currency (codes "EUR")) txs.now }
{
    txs.iter().all(|tx| tx.currency.text() == "EUR")
}

/// Whether OrgnlMsgNmId names the kind.
pub(crate) fn names(kind: Kind, original: &Original) -> bool
    ensures { result ≡ is_name_of kind original.now.message_name }
{
    kind.is_named(original.message_name.text())
}

/// Whether OrgnlMsgNmId of each transaction names the kind.
pub(crate) fn name_their_originals(kind: Kind, txs: &[RecallTx]) -> bool
    ensures { result ≡ list_all (λ tx. is_name_of kind tx.original.message_name) txs.now }
{
    txs.iter().all(|tx| names(kind, &tx.original))
}

/// Whether two transactions make the same recall of the same transfer. The transfer's identification is
/// compared first, because it differs most often.
fn have_same_recall(left: &RecallTx, right: &RecallTx) -> bool
    ensures { result ≡ share_recall left.now right.now }
{
    left.original
        .transaction_id
        .cmp(&right.original.transaction_id)
        .is_eq()
        && left.cancellation_id.cmp(&right.cancellation_id).is_eq()
        && left.debtor_agent.cmp(&right.debtor_agent).is_eq()
}

/// Whether one of the other transactions makes the same recall of the same transfer.
fn recalls_again(tx: &RecallTx, others: &[RecallTx]) -> bool
    ensures { result ≡ list_any (share_recall tx.now) others.now }
{
    others.iter().any(|other| have_same_recall(tx, other))
}

/// Whether two transactions make the same recall of the same transfer. It compares each with each.
fn repeats(txs: &[RecallTx]) -> bool
    ensures { result ≡ repeats txs.now }
{
    let mut rest = txs;
    while let Some((tx, others)) = rest.split_first() {
        if recalls_again(tx, others) {
            return true;
        }
        rest = others;
    }
    false
}

/// Whether a camt.056 may have this number of transactions: 1 to 100.
pub fn is_right_count(count: usize) -> bool
    ensures { result ≡ is_right_count count }
{
    1 <= count && count <= 100
}

/// The first broken rule of `RepeatedRecall` (22) and `WrongCount` (23), for these transactions.
#[tactic(auto, unfolding(crate::specs::Rules::broken_by_transactions))]
pub(crate) fn broken_by_transactions(txs: &[RecallTx]) -> Option<RuleFault>
    ensures { result ≡ broken_by_transactions txs.now }
{
    if repeats(txs) {
        Some(RuleFault::RepeatedRecall)
    } else if !is_right_count(txs.len()) {
        Some(RuleFault::WrongCount)
    } else {
        None
    }
}

/// Whether the next transaction makes the same recall of the same transfer.
fn recalls_next(tx: &RecallTx, others: &[RecallTx]) -> bool
    ensures { result ≡ recalls_next tx.now others.now }
{
    match others.first() {
        Some(next) => have_same_recall(tx, next),
        None => false,
    }
}

/// Whether two neighbours make the same recall of the same transfer.
fn repeats_next(txs: &[RecallTx]) -> bool
    ensures { result ≡ repeats_next txs.now }
{
    let mut rest = txs;
    while let Some((tx, others)) = rest.split_first() {
        if recalls_next(tx, others) {
            return true;
        }
        rest = others;
    }
    false
}

/// Whether two transactions make the same recall of the same transfer, for any number of transactions.
/// The transactions are sorted by their recalls, so that two of one recall are neighbours. O(n log n).
fn repeats_in_order(txs: Vec<RecallTx>) -> bool
    ensures { result ≡ repeats txs.items }
{
    let mut txs = txs;
    txs.sort_unstable_by(|left, right| left.recall().cmp(&right.recall()));
    repeats_next(&txs)
}

/// The first broken rule of `RepeatedRecall` (22) and `WrongCount` (23), for a camt.056 of more than 100 transactions.
#[tactic(auto, unfolding(crate::specs::Rules::broken_by_transactions))]
pub(crate) fn broken_by_long(cancellation_request: CancellationRequest) -> RuleFault
    requires { 100 < length cancellation_request.txs }
    ensures { broken_by_transactions cancellation_request.txs ≡ Some result }
{
    let CancellationRequest { head, txs } = cancellation_request;
    if repeats_in_order(txs) {
        RuleFault::RepeatedRecall
    } else {
        RuleFault::WrongCount
    }
}
