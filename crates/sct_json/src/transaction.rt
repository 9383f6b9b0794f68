//! A transaction of a camt.056: the recall of one transfer.
ghost use Rattle.std.specs.Prelude.{◌≡◌, OnOk};
ghost use Rattle.serde_json.specs.Data.{Data};
ghost use Rattle.serde_json.specs.View.{view};
ghost use Rattle.sct_json.specs.Objects.{object_of};
ghost use Rattle.sct_json.specs.Reading.{GivesWithMemory, GivesWithoutMemory, transaction_in, element_in, at_place};
ghost use Rattle.sct_json.specs.Line.{with_line, transaction_line, with_object, Writes};
ghost use Rattle.sct_json.specs.Writing.{TransactionReadsBack};

use crate::extra_key::refuse_extra;
use crate::faults::JsonFault;
use crate::keys::{Key, Shape};
use crate::members::{may_read_back, optional, put, put_optional, reads_back, required};
use crate::object::Keyed;
use crate::original;
use crate::plain::PlainTransaction;
use crate::tables::{read_back_member, read_back_table, read_member, read_table};
use json::Writer;
use sct_message::RecallTx;
use serde_json::Value;
use std::alloc::{AllocError, Global};

/// The keys of a transaction, in their order.
macro_rules! transaction_table {
    ($walk:ident! { $($context:tt)* }) => {
        $walk! { [$($context)*] RecallTx {
            cancellation_id: required CxlId,
            original: part original,
            original_amount: required OrgnlIntrBkSttlmAmt,
            currency: required Ccy,
            original_settlement_date: optional OrgnlIntrBkSttlmDt,
            reason: required Rsn,
            debtor_agent: required DbtrAgt,
        } }
    };
}

#[tactic(auto, unfolding(crate::specs::Reading::transaction_in))]
pub(crate) fn read<O: Keyed>(alloc: Global, object: &O) -> Result<RecallTx, JsonFault>
    ensures { GivesWithoutMemory result (transaction_in (O.value object.now)) }
{
    transaction_table!(read_table! { alloc, object })
}

/// An element of the list of a camt.056.
pub(crate) trait ListElement {
    /// The JSON value that the element is.
    ghost element: { Self → Data };

    /// The transaction that the element is, if the element is an object with no other key.
    fn read_alone(&self, alloc: Global) -> Result<RecallTx, JsonFault>
        ensures { GivesWithMemory result (element_in (element self.now)) };
}

impl ListElement for Value {
    ghost element = { view };

    #[tactic(auto, unfolding(crate::specs::Reading::element_in))]
    fn read_alone(&self, alloc: Global) -> Result<RecallTx, JsonFault> {
        let Some(members) = self.as_object() else {
            return Err(JsonFault::NotObject);
        };
        let tx = read(alloc, self)?;
        refuse_extra(alloc, Shape::Transaction, members)?;
        Ok(tx)
    }
}

impl ListElement for PlainTransaction<'_> {
    ghost element = { object_of };

    fn read_alone(&self, alloc: Global) -> Result<RecallTx, JsonFault> {
        read(alloc, self.object())
    }
}

/// The transaction at a place of a list, counted from 1.
pub(crate) fn read_at<E: ListElement>(
    alloc: Global,
    place: usize,
    element: &E,
) -> Result<RecallTx, JsonFault>
    ensures { GivesWithMemory result (at_place place (element_in (E.element element.now))) }
{
    match element.read_alone(alloc) {
        Ok(tx) => Ok(tx),
        Err(fault) => Err(fault.placed(place)),
    }
}

/// Writes the members, in the order of the bytes of their keys.
fn put_all(tx: &RecallTx, out: &mut Writer) -> Result<(), AllocError>
    ensures { OnOk result (Writes (with_line (transaction_line tx.now)) out.old out.new) }
{
    put(Key::Ccy, &tx.currency, out)?;
    put(Key::CxlId, &tx.cancellation_id, out)?;
    put(Key::DbtrAgt, &tx.debtor_agent, out)?;
    put_optional(Key::OrgnlEndToEndId, &tx.original.end_to_end_id, out)?;
    put(Key::OrgnlIntrBkSttlmAmt, &tx.original_amount, out)?;
    put_optional(Key::OrgnlIntrBkSttlmDt, &tx.original_settlement_date, out)?;
    put(Key::OrgnlMsgId, &tx.original.message_id, out)?;
    put(Key::OrgnlMsgNmId, &tx.original.message_name, out)?;
    put(Key::OrgnlTxId, &tx.original.transaction_id, out)?;
    put(Key::Rsn, &tx.reason, out)?;
    Ok(())
}

/// Writes an object of the transaction.
pub(crate) fn put_object(tx: &RecallTx, out: &mut Writer) -> Result<(), AllocError>
    ensures { OnOk result (Writes (with_object tx.now) out.old out.new) }
{
    out.begin_object()?;
    put_all(tx, out)?;
    out.end_object()
}

/// A law: the written form of each element is read as the element.
pub(crate) fn elements_read_back(tx: &RecallTx)
    ensures { TransactionReadsBack tx.now }
{
    transaction_table!(read_back_table! { tx })
}
