//! The order of messages.
ghost use Rattle.std.specs.Prelude.{◌≡◌, ◌↔◌, List};
ghost use Rattle.std.specs.Cmp.{IsTotalOrder};
ghost use Rattle.sct_message.specs.Ascending.{IsTheAscendingList};
ghost use Rattle.sct_message.specs.Drafts.{kind_of};
ghost use Rattle.sct_message.specs.Kinds.{kind_text};
ghost use Rattle.sct_message.specs.Order.{text_order, by_elements, message_order, kind_order, identity_order, transfer_order, recall_order, same_identity, same_transfer};
ghost use Rattle.sct_message.specs.Recalls.{recalls_order};
ghost use Rattle.std.specs.Ordering.{eq_by_cmp};
ghost use Rattle.std.specs.FinSet.{IsAntisymmetric};
ghost use Rattle.sct_message.specs.declared.kinds.Kind.{Kind as KindOf};
ghost use Rattle.sct_message.specs.declared.keys.Identity.{Identity as IdentityOf};
ghost use Rattle.sct_message.specs.declared.keys.TransferKey.{TransferKey as TransferOf};
ghost use Rattle.sct_message.specs.declared.keys.RecallKey.{RecallKey as RecallOf};
ghost use Rattle.sct_message.specs.declared.draft.Draft.{Draft as Elements};
ghost use Rattle.sct_message.specs.declared.draft.Draft.TheVariants as draft;

use crate::draft::{
    CancellationRequest, CreditTransfer, Draft, PaymentReturn, Resolution, StatusReport,
    StatusRequest,
};
use crate::keys::{Identity, RecallKey, TransferKey};
use crate::kinds::Kind;
use std::cmp::Ordering;

/// The order of two camt.056 by their elements in the order of its key table, and then by their lists of transactions.
/// A list that begins another comes before it.
pub(crate) fn cancellation_request_order(
    left: &CancellationRequest,
    right: &CancellationRequest,
) -> Ordering
    ensures { result ≡ recalls_order left.now right.now }
{
    let by_head = left.head.cmp(&right.head);
    if by_head != Ordering::Equal {
        return by_head;
    }
    left.txs.cmp(&right.txs)
}

/// The order of two messages' elements in the order of the kind's key table, if both are of one kind.
fn elements_order(left: &Draft, right: &Draft) -> Ordering
    requires { kind_of left.now ≡ kind_of right.now }
    ensures { result ≡ by_elements left.now right.now }
{
    match (left, right) {
        (Draft::CreditTransfer(left), Draft::CreditTransfer(right)) => left.cmp(right),
        (Draft::StatusReport(left), Draft::StatusReport(right)) => left.cmp(right),
        (Draft::StatusRequest(left), Draft::StatusRequest(right)) => left.cmp(right),
        (Draft::CancellationRequest(left), Draft::CancellationRequest(right)) =>
            cancellation_request_order(left, right),
        (Draft::PaymentReturn(left), Draft::PaymentReturn(right)) => left.cmp(right),
        (Draft::Resolution(left), Draft::Resolution(right)) => left.cmp(right),
        _ => unreachable!(),
    }
}

/// The order of two messages' kinds, which is that of the kinds' texts.
fn kind_order(left: Kind, right: Kind) -> Ordering
    ensures order { result ≡ kind_order left right }
    ensures same { result ≡ Ordering.Equal → left ≡ right }
{
    left.cmp(&right)
}

/// The order of two messages.
#[tactic(auto, unfolding(crate::specs::Order::message_order))]
pub(crate) fn order(left: &Draft, right: &Draft) -> Ordering
    ensures { result ≡ message_order left.now right.now }
{
    let by_sender = left
        .head()
        .instructing_agent
        .cmp(&right.head().instructing_agent);
    if by_sender != Ordering::Equal {
        return by_sender;
    }
    let by_kind = kind_order(left.kind(), right.kind());
    if by_kind != Ordering::Equal {
        return by_kind;
    }
    let by_id = left.head().message_id.cmp(&right.head().message_id);
    if by_id != Ordering::Equal {
        return by_id;
    }
    elements_order(left, right)
}

/// A law: keys are totally ordered by their parts in turn, and kinds by their texts. Two keys compare
/// Equal only if all their parts are equal.
pub fn keys_are_ordered()
    ensures kinds { (j k : KindOf) → ⟦<Kind as Ord>⟧.cmp j k ≡ text_order (kind_text j) (kind_text k) }
    ensures identities { (i j : IdentityOf) → ⟦<Identity as Ord>⟧.cmp i j ≡ identity_order i j }
    ensures transfers { (s t : TransferOf) → ⟦<TransferKey as Ord>⟧.cmp s t ≡ transfer_order s t }
    ensures recalls { (q r : RecallOf) → ⟦<RecallKey as Ord>⟧.cmp q r ≡ recall_order q r }
    ensures kinds_equal { (j k : KindOf) → ⟦<Kind as PartialEq>⟧.eq j k ≡ eq_by_cmp kind_order j k }
    ensures identities_equal { (i j : IdentityOf) → ⟦<Identity as PartialEq>⟧.eq i j ≡ same_identity i j }
    ensures transfers_equal { (s t : TransferOf) → ⟦<TransferKey as PartialEq>⟧.eq s t ≡ same_transfer s t }
    ensures identities_total { IsTotalOrder identity_order }
    ensures transfers_total { IsTotalOrder transfer_order }
    ensures recalls_total { IsTotalOrder recall_order }
    ensures identities_same { IsAntisymmetric identity_order }
    ensures transfers_same { IsAntisymmetric transfer_order }
    ensures recalls_same { IsAntisymmetric recall_order }
{}

/// A law: messages are totally ordered, and two compare Equal exactly if all their elements are equal.
pub fn order_is_total()
    ensures total { IsTotalOrder message_order }
    ensures same { (a b : Elements) → (message_order a b ≡ Ordering.Equal) ↔ (a ≡ b) }
{}

/// A law: of any list of keys, `ascending` is the one list that has just its members and ascends strictly. The order is
/// total, and only equal keys compare Equal.
pub fn ascending_is_the_sorted_list<K>()
    ensures { (order : K → K → Ordering) → IsTotalOrder order → IsAntisymmetric order
        → (keys : List K) → IsTheAscendingList order keys }
{}
