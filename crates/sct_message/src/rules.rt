//! The rules of each kind.
ghost use Rattle.std.specs.Prelude.{◌≡◌, ◌↔◌, Option, Some, None, IsTrue};
ghost use Rattle.sct_message.specs.Inside.{broken_before_list, is_long};
ghost use Rattle.sct_message.specs.Rules.{rule_number, first_broken_rule, broken_in_list, broken_in_credit_transfer, broken_in_status_report, broken_in_cancellation_request, broken_in_payment_return, broken_in_resolution, broken_in_kind, kind_it_is_about, names_its_original, FollowsRules, Breaks, IsFirstBroken};

use crate::draft::{
    CancellationRequest, CreditTransfer, Draft, PaymentReturn, Resolution, StatusReport,
};
use crate::kinds::Kind;
use crate::recall_list::{
    are_in_euro, broken_by_long, broken_by_transactions, name_their_originals, names,
};
use thiserror::Error;

/// A rule that a message's elements break: the first of its kind's rules, by number (EPC004-16).
#[derive(Clone, Copy, Debug, PartialEq, Eq, Error)]
pub enum RuleFault {
    /// 10: MsgNmId is not a name of the message's kind.
    #[error("the message name is of another kind")]
    WrongName,
    /// 11: Ccy is not EUR.
    #[error("the currency is not EUR")]
    WrongCurrency,
    /// 12: SvcLvl is not SEPA.
    #[error("the service level is not SEPA")]
    WrongService,
    /// 13: LclInstrm is not INST.
    #[error("the local instrument is not INST")]
    WrongInstrument,
    /// 14: ChrgBr is not SLEV.
    #[error("the charge bearer is not SLEV")]
    WrongCharge,
    /// 15: TxSts is neither ACCP nor RJCT.
    #[error("the status is neither ACCP nor RJCT")]
    WrongStatus,
    /// 16: a rejection has no reason.
    #[error("a rejection has no reason")]
    ReasonMissing,
    /// 17: a positive confirmation has a reason.
    #[error("a positive confirmation has a reason")]
    ReasonUnasked,
    /// 18: the returned amount is above the original one.
    #[error("the returned amount is above the original amount")]
    ReturnAboveOriginal,
    /// 19: the reason of a return is not FOCR.
    #[error("the reason of the return is not FOCR")]
    WrongReturnReason,
    /// 20: Conf is not RJCR.
    #[error("the confirmation is not RJCR")]
    WrongAnswer,
    /// 21: OrgnlMsgNmId is not a name of the kind that such a message is about.
    #[error("the original message name is of a wrong kind")]
    WrongOriginalName,
    /// 22: two transactions of a camt.056 have the same recall key.
    #[error("a recall is named twice")]
    RepeatedRecall,
    /// 23: a camt.056 has no transaction, or more than 100.
    #[error("the number of transactions is not 1 to 100")]
    WrongCount,
}

impl RuleFault {
    /// The fault's number, 10 to 23.
    pub fn number(self) -> u8
        ensures { result ≡ rule_number self }
    {
        match self {
            RuleFault::WrongName => 10,
            RuleFault::WrongCurrency => 11,
            RuleFault::WrongService => 12,
            RuleFault::WrongInstrument => 13,
            RuleFault::WrongCharge => 14,
            RuleFault::WrongStatus => 15,
            RuleFault::ReasonMissing => 16,
            RuleFault::ReasonUnasked => 17,
            RuleFault::ReturnAboveOriginal => 18,
            RuleFault::WrongReturnReason => 19,
            RuleFault::WrongAnswer => 20,
            RuleFault::WrongOriginalName => 21,
            RuleFault::RepeatedRecall => 22,
            RuleFault::WrongCount => 23,
        }
    }
}

/// The first of the rules 11 to 14 that a pacs.008 breaks.
#[tactic(auto, unfolding(crate::specs::Rules::broken_in_credit_transfer))]
fn broken_in_credit_transfer(credit_transfer: &CreditTransfer) -> Option<RuleFault>
    ensures { result ≡ broken_in_credit_transfer credit_transfer.now }
{
    if credit_transfer.currency.text() != "EUR" {
        Some(RuleFault::WrongCurrency)
    } else if credit_transfer.service_level.text() != "SEPA" {
        Some(RuleFault::WrongService)
    } else if credit_transfer.local_instrument.text() != "INST" {
        Some(RuleFault::WrongInstrument)
    } else if credit_transfer.charge_bearer.text() != "SLEV" {
        Some(RuleFault::WrongCharge)
    } else {
        None
    }
}

/// The first of the rules 15 to 17 that a pacs.002 breaks.
#[tactic(auto, unfolding(crate::specs::Rules::broken_in_status_report))]
fn broken_in_status_report(status_report: &StatusReport) -> Option<RuleFault>
    ensures { result ≡ broken_in_status_report status_report.now }
{
    let status = status_report.status.text();
    if status != "ACCP" && status != "RJCT" {
        Some(RuleFault::WrongStatus)
    } else if status == "RJCT" && status_report.reason.is_none() {
        Some(RuleFault::ReasonMissing)
    } else if status == "ACCP" && status_report.reason.is_some() {
        Some(RuleFault::ReasonUnasked)
    } else {
        None
    }
}

/// `WrongCurrency` (11), if a camt.056 breaks it.
#[tactic(auto, unfolding(crate::specs::Rules::broken_in_cancellation_request))]
fn broken_in_cancellation_request(cancellation_request: &CancellationRequest) -> Option<RuleFault>
    ensures { result ≡ broken_in_cancellation_request cancellation_request.now }
{
    if are_in_euro(&cancellation_request.txs) {
        None
    } else {
        Some(RuleFault::WrongCurrency)
    }
}

/// The first of the rules 11, 18 and 19 that a pacs.004 breaks.
#[tactic(auto, unfolding(crate::specs::Rules::broken_in_payment_return))]
fn broken_in_payment_return(payment_return: &PaymentReturn) -> Option<RuleFault>
    ensures { result ≡ broken_in_payment_return payment_return.now }
{
    if payment_return.currency.text() != "EUR" {
        Some(RuleFault::WrongCurrency)
    } else if payment_return.returned_amount.cents() > payment_return.original_amount.cents() {
        Some(RuleFault::ReturnAboveOriginal)
    } else if payment_return.reason.text() != "FOCR" {
        Some(RuleFault::WrongReturnReason)
    } else {
        None
    }
}

/// `WrongAnswer` (20), if a camt.029 breaks it.
#[tactic(auto, unfolding(crate::specs::Rules::broken_in_resolution))]
fn broken_in_resolution(resolution: &Resolution) -> Option<RuleFault>
    ensures { result ≡ broken_in_resolution resolution.now }
{
    if resolution.confirmation.text() != "RJCR" {
        Some(RuleFault::WrongAnswer)
    } else {
        None
    }
}

/// The first broken rule, by number, among those of the draft's kind alone.
fn broken_in_kind(draft: &Draft) -> Option<RuleFault>
    ensures { result ≡ broken_in_kind draft.now }
{
    match draft {
        Draft::CreditTransfer(credit_transfer) => broken_in_credit_transfer(credit_transfer),
        Draft::StatusReport(status_report) => broken_in_status_report(status_report),
        Draft::StatusRequest(_) => None,
        Draft::CancellationRequest(cancellation_request) => broken_in_cancellation_request(
            cancellation_request,
        ),
        Draft::PaymentReturn(payment_return) => broken_in_payment_return(payment_return),
        Draft::Resolution(resolution) => broken_in_resolution(resolution),
    }
}

/// The kind of the message that a draft is about: camt.056 for a pacs.028 that names a recall, else pacs.008.
fn kind_it_is_about(draft: &Draft) -> Kind
    ensures { result ≡ kind_it_is_about draft.now }
{
    match draft {
        Draft::StatusRequest(status_request) if status_request.cancellation_id.is_some() =>
            Kind::Camt056,
        _ => Kind::Pacs008,
    }
}

/// Whether OrgnlMsgNmId, if the draft has one, names the kind of the message that the draft is about.
fn names_its_original(draft: &Draft) -> bool
    ensures { result ≡ names_its_original draft.now }
{
    let kind = kind_it_is_about(draft);
    match draft {
        Draft::CreditTransfer(_) => true,
        Draft::StatusReport(m) => names(kind, &m.original),
        Draft::StatusRequest(m) => names(kind, &m.original),
        Draft::CancellationRequest(m) => name_their_originals(kind, &m.txs),
        Draft::PaymentReturn(m) => names(kind, &m.original),
        Draft::Resolution(m) => names(kind, &m.original),
    }
}

/// The first broken rule of `RepeatedRecall` (22) and `WrongCount` (23), for a camt.056.
pub(crate) fn broken_in_list(draft: &Draft) -> Option<RuleFault>
    ensures { result ≡ broken_in_list draft.now }
{
    match draft {
        Draft::CancellationRequest(m) => broken_by_transactions(&m.txs),
        _ => None,
    }
}

/// The first broken rule, by number, except those on the list of a camt.056.
#[tactic(auto, unfolding(crate::specs::Inside::broken_before_list))]
pub(crate) fn broken_before_list(draft: &Draft) -> Option<RuleFault>
    ensures { result ≡ broken_before_list draft.now }
{
    if !draft.kind().is_named(draft.head().message_name.text()) {
        return Some(RuleFault::WrongName);
    }
    let broken = broken_in_kind(draft);
    if broken.is_some() {
        return broken;
    }
    if names_its_original(draft) {
        None
    } else {
        Some(RuleFault::WrongOriginalName)
    }
}

/// Whether a draft is a camt.056 of more than 100 transactions.
pub(crate) fn is_long(draft: &Draft) -> bool
    ensures { result ≡ is_long draft.now }
{
    match draft {
        Draft::CancellationRequest(m) => m.txs.len() > 100,
        _ => false,
    }
}

/// The first broken rule of `RepeatedRecall` (22) and `WrongCount` (23), for a camt.056 of more than 100 transactions.
/// It takes the draft in order to sort the transactions, because comparing each with each would take too long.
pub(crate) fn broken_in_long(draft: Draft) -> RuleFault
    requires { IsTrue (is_long draft) }
    ensures { broken_in_list draft ≡ Some result }
{
    match draft {
        Draft::CancellationRequest(m) => broken_by_long(m.into_inner()),
        _ => unreachable!(),
    }
}

/// A law: no rule is broken exactly if all rules of the kind hold.
pub fn all_rules_hold_where_none_is_broken()
    ensures { (draft : Draft) → (first_broken_rule draft ≡ None) ↔ FollowsRules draft }
{}

/// A law: the rule that `Message::of` returns is broken, and no broken rule has a smaller number. It
/// returns a message exactly if no rule is broken.
pub fn first_broken_rule_is_told()
    ensures told { (d : Draft) (f : RuleFault) → (first_broken_rule d ≡ Some f) ↔ IsFirstBroken f d }
    ensures none { (d : Draft) → (first_broken_rule d ≡ None) ↔ ((f : RuleFault) → ¬ Breaks f d) }
{}
