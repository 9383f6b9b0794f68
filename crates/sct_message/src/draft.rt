//! The elements of a message, kind by kind, each in the order of its key table.
ghost use Rattle.std.specs.Prelude.{◌≡◌};
ghost use Rattle.std.specs.Ordering.{eq_by_cmp};
ghost use Rattle.std.specs.Cmp.{partial_equiv_from_equiv, eq_by_cmp_equiv};

use crate::boxed::Boxed;
use crate::keys::{RecallKey, TransferKey};
use crate::kinds::Kind;
use crate::order::cancellation_request_order;
use sct_element::{Amount, Bic, Code4, Day, Iban, Id35, Name, Remittance, Stamp};
use sct_reason::Reason;
use std::hash::{Hash, Hasher};
use std::marker::Model;

/// What every message begins with (GroupHeader of ISO 20022).
#[derive(Debug, Drop, PartialEq, Eq, PartialOrd, Ord, Hash)]
pub struct Head {
    /// MsgNmId: the name of the message's kind.
    pub message_name: Id35,
    /// MsgId: the message's identification, which its sender gives once.
    pub message_id: Id35,
    /// CreDtTm: when the message was made.
    pub creation_time: Stamp,
    /// InstgAgt: the bank that sent it.
    pub instructing_agent: Bic,
    /// InstdAgt: the bank that it was sent to.
    pub instructed_agent: Option<Bic>,
}

/// The transfer that a later message is about (OriginalGroupInformation, and the original identifications of the
/// transaction).
#[derive(Debug, Drop, PartialEq, Eq, PartialOrd, Ord, Hash)]
pub struct Original {
    /// OrgnlMsgId: the identification of the original message.
    pub message_id: Id35,
    /// OrgnlMsgNmId: the name of its kind.
    pub message_name: Id35,
    /// OrgnlEndToEndId: the originator's reference.
    pub end_to_end_id: Option<Id35>,
    /// OrgnlTxId: the transfer's identification.
    pub transaction_id: Id35,
}

/// pacs.008: a transfer in euro from an originator to a beneficiary.
#[derive(Debug, Drop, PartialEq, Eq, PartialOrd, Ord, Hash)]
pub struct CreditTransfer {
    /// MsgNmId, MsgId, CreDtTm, InstgAgt, InstdAgt.
    pub head: Head,
    /// IntrBkSttlmDt: the settlement date.
    pub settlement_date: Day,
    /// SvcLvl: `SEPA`.
    pub service_level: Code4,
    /// LclInstrm: `INST`.
    pub local_instrument: Code4,
    /// InstrId: the sender's reference.
    pub instruction_id: Option<Id35>,
    /// EndToEndId: the originator's reference.
    pub end_to_end_id: Id35,
    /// TxId: the transfer's identification.
    pub transaction_id: Id35,
    /// IntrBkSttlmAmt: the amount, in cents.
    pub settlement_amount: Amount,
    /// Ccy: `EUR`.
    pub currency: Code4,
    /// ChrgBr: `SLEV`.
    pub charge_bearer: Code4,
    /// AccptncDtTm: when the originator bank accepted the order.
    pub acceptance_time: Option<Stamp>,
    /// Dbtr: the originator.
    pub debtor: Name,
    /// DbtrAcct: the originator's account.
    pub debtor_account: Iban,
    /// DbtrAgt: the originator bank.
    pub debtor_agent: Bic,
    /// CdtrAgt: the beneficiary bank.
    pub creditor_agent: Bic,
    /// Cdtr: the beneficiary.
    pub creditor: Name,
    /// CdtrAcct: the beneficiary's account.
    pub creditor_account: Iban,
    /// Ustrd: remittance information.
    pub remittance: Option<Remittance>,
}

/// pacs.002: the confirmation of a transfer, or its rejection with a reason.
#[derive(Debug, Drop, PartialEq, Eq, PartialOrd, Ord, Hash)]
pub struct StatusReport {
    /// MsgNmId, MsgId, CreDtTm, InstgAgt, InstdAgt.
    pub head: Head,
    /// OrgnlMsgId, OrgnlMsgNmId, OrgnlEndToEndId, OrgnlTxId.
    pub original: Original,
    /// TxSts: `ACCP` or `RJCT`.
    pub status: Code4,
    /// Rsn: why the transfer was rejected.
    pub reason: Option<Reason>,
    /// DbtrAgt: the originator bank of the transfer.
    pub debtor_agent: Bic,
}

/// pacs.028: asks for the status of a transfer after silence, or of the recall that it names.
#[derive(Debug, Drop, PartialEq, Eq, PartialOrd, Ord, Hash)]
pub struct StatusRequest {
    /// MsgNmId, MsgId, CreDtTm, InstgAgt, InstdAgt.
    pub head: Head,
    /// OrgnlMsgId, OrgnlMsgNmId, OrgnlEndToEndId, OrgnlTxId.
    pub original: Original,
    /// OrgnlCxlId: the recall that it asks about, or none if it asks about the transfer.
    pub cancellation_id: Option<Id35>,
    /// DbtrAgt: the originator bank of the transfer.
    pub debtor_agent: Bic,
}

/// One transaction of a camt.056: the recall of a transfer, with a reason.
#[derive(Debug, Drop, PartialEq, Eq, PartialOrd, Ord, Hash)]
pub struct RecallTx {
    /// CxlId: the identification of the recall.
    pub cancellation_id: Id35,
    /// OrgnlMsgId, OrgnlMsgNmId, OrgnlEndToEndId, OrgnlTxId.
    pub original: Original,
    /// OrgnlIntrBkSttlmAmt: the amount of the transfer, in cents.
    pub original_amount: Amount,
    /// Ccy: `EUR`.
    pub currency: Code4,
    /// OrgnlIntrBkSttlmDt: the settlement date of the transfer.
    pub original_settlement_date: Option<Day>,
    /// Rsn: why the transfer is recalled.
    pub reason: Reason,
    /// DbtrAgt: the originator bank of the transfer.
    pub debtor_agent: Bic,
}

impl RecallTx {
    ghost use Rattle.sct_message.specs.Recalls.{transfer_in, recall_in};

    /// The transfer that is recalled. It does not allocate.
    pub fn transfer(&self) -> TransferKey
        ensures { result ≡ transfer_in self.now }
    {
        TransferKey {
            debtor_agent: self.debtor_agent.copy(),
            tx: self.original.transaction_id.copy(),
        }
    }

    /// The recall that the transaction makes. It does not allocate.
    pub fn recall(&self) -> RecallKey
        ensures { result ≡ recall_in self.now }
    {
        RecallKey {
            transfer: self.transfer(),
            cxl: self.cancellation_id.copy(),
        }
    }
}

/// camt.056: the recall of 1 to 100 transfers.
/// Contracts see the transactions as a list, wherever it is in memory.
#[derive(Debug, Drop)]
pub struct CancellationRequest {
    /// MsgNmId, MsgId (of the assignment), CreDtTm, InstgAgt (the assigner), InstdAgt (the assignee).
    pub head: Head,
    /// CxlId to DbtrAgt, once for each transfer that is recalled.
    pub txs: Vec<RecallTx>,
}

impl Model for CancellationRequest {
    ghost use Rattle.sct_message.specs.Recalls.{Recalls};

    ghost Value = { Recalls };

    ghost view = { λ r. record { head = r.head; txs = r.txs.items } };
}

impl PartialEq for CancellationRequest {
    ghost use Rattle.sct_message.specs.Recalls.{recalls_order};
    ghost use Rattle.sct_message.specs.RecallOrders.{recalls_total};

    ghost eq = { eq_by_cmp recalls_order };

    ghost laws = { partial_equiv_from_equiv (eq_by_cmp_equiv recalls_total) };

    fn eq(&self, other: &Self) -> bool {
        cancellation_request_order(self, other).is_eq()
    }
}

impl Eq for CancellationRequest {
    ghost use Rattle.sct_message.specs.RecallOrders.{recalls_total};

    ghost laws = { eq_by_cmp_equiv recalls_total };
}

impl Hash for CancellationRequest {
    ghost use Rattle.std.specs.Prelude.{◌++◌};
    ghost use Rattle.std.specs.Hash as fed;
    ghost use Rattle.sct_message.specs.contracts.draft.HeadHash.TheImpl as head;
    ghost use Rattle.sct_message.specs.contracts.draft.RecallTxHash.TheImpl as tx;
    ghost use Rattle.sct_message.specs.RecallOrders.{same_recalls_input};

    ghost hash_input = { λ r. head.ghosts.hash_input r.head ++ fed.slice tx.ghosts.hash_input r.txs };

    ghost respects_eq = { same_recalls_input (λ r. head.ghosts.hash_input r.head ++ fed.slice tx.ghosts.hash_input r.txs) };

    fn hash<H: Hasher>(&self, state: &mut H) {
        self.head.hash(state);
        self.txs.hash(state);
    }
}

/// pacs.004: the positive answer to a recall, which returns the money.
#[derive(Debug, Drop, PartialEq, Eq, PartialOrd, Ord, Hash)]
pub struct PaymentReturn {
    /// MsgNmId, MsgId, CreDtTm, InstgAgt, InstdAgt.
    pub head: Head,
    /// RtrId: the identification of the return.
    pub return_id: Id35,
    /// OrgnlCxlId: the recall that it answers.
    pub cancellation_id: Id35,
    /// OrgnlMsgId, OrgnlMsgNmId, OrgnlEndToEndId, OrgnlTxId.
    pub original: Original,
    /// OrgnlIntrBkSttlmAmt: the amount of the transfer, in cents.
    pub original_amount: Amount,
    /// RtrdIntrBkSttlmAmt: the amount that is returned, in cents; at most the amount of the transfer.
    pub returned_amount: Amount,
    /// Ccy: `EUR`.
    pub currency: Code4,
    /// IntrBkSttlmDt: the settlement date of the return.
    pub settlement_date: Day,
    /// Rsn: `FOCR`, a return that follows a recall.
    pub reason: Reason,
    /// DbtrAgt: the originator bank of the transfer.
    pub debtor_agent: Bic,
}

/// camt.029: the negative answer to a recall, with a reason.
#[derive(Debug, Drop, PartialEq, Eq, PartialOrd, Ord, Hash)]
pub struct Resolution {
    /// MsgNmId, MsgId (of the assignment), CreDtTm, InstgAgt (the assigner), InstdAgt (the assignee).
    pub head: Head,
    /// CxlStsId: the identification of the answer.
    pub resolution_id: Id35,
    /// OrgnlCxlId: the recall that it answers.
    pub cancellation_id: Id35,
    /// OrgnlMsgId, OrgnlMsgNmId, OrgnlEndToEndId, OrgnlTxId.
    pub original: Original,
    /// Conf: `RJCR`, which refuses the recall.
    pub confirmation: Code4,
    /// Rsn: why the recall is refused.
    pub reason: Reason,
    /// DbtrAgt: the originator bank of the transfer.
    pub debtor_agent: Bic,
}

/// The elements of a message, before the rules of its kind are checked. A draft is 16 bytes, and its elements are in
/// memory of their own: 728 bytes for a pacs.008, 472 for a pacs.002, 480 for a pacs.028, 600 for a pacs.004 and 560 for
/// a camt.029; 224 for a camt.056, with 352 for each transaction of its list. Names and remittance information take their
/// texts besides. `Boxed::new` takes this memory, and may return out of memory. The other calls do not allocate.
#[derive(Debug, Drop, PartialEq, Eq, Hash)]
pub enum Draft {
    /// pacs.008.
    CreditTransfer(Boxed<CreditTransfer>),
    /// pacs.002.
    StatusReport(Boxed<StatusReport>),
    /// pacs.028.
    StatusRequest(Boxed<StatusRequest>),
    /// camt.056.
    CancellationRequest(Boxed<CancellationRequest>),
    /// pacs.004.
    PaymentReturn(Boxed<PaymentReturn>),
    /// camt.029.
    Resolution(Boxed<Resolution>),
}

impl Draft {
    ghost use Rattle.sct_message.specs.Drafts.{kind_of, head_of};

    /// The kind of the message.
    pub fn kind(&self) -> Kind
        ensures { result ≡ kind_of self.now }
    {
        match self {
            Draft::CreditTransfer(_) => Kind::Pacs008,
            Draft::StatusReport(_) => Kind::Pacs002,
            Draft::StatusRequest(_) => Kind::Pacs028,
            Draft::CancellationRequest(_) => Kind::Camt056,
            Draft::PaymentReturn(_) => Kind::Pacs004,
            Draft::Resolution(_) => Kind::Camt029,
        }
    }

    /// The head, which every message begins with.
    pub fn head(&self) -> &Head
        ensures { result.now ≡ head_of self.now }
    {
        match self {
            Draft::CreditTransfer(credit_transfer) => &credit_transfer.head,
            Draft::StatusReport(status_report) => &status_report.head,
            Draft::StatusRequest(status_request) => &status_request.head,
            Draft::CancellationRequest(cancellation_request) => &cancellation_request.head,
            Draft::PaymentReturn(payment_return) => &payment_return.head,
            Draft::Resolution(resolution) => &resolution.head,
        }
    }
}
