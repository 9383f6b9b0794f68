//! pacs.004: the return of a transfer's money.
ghost use Rattle.std.specs.Prelude.{◌≡◌, OnOk};
ghost use Rattle.sct_json.specs.Reading.{GivesWithoutMemory, payment_return_in};
ghost use Rattle.sct_json.specs.Line.{with_line, payment_return_line, Writes};
ghost use Rattle.sct_json.specs.Writing.{PaymentReturnReadsBack};

use crate::faults::JsonFault;
use crate::keys::Key;
use crate::members::{may_read_back, optional, put, put_optional, reads_back, required};
use crate::object::Object;
use crate::tables::{read_back_member, read_back_table, read_member, read_table};
use crate::{head, original};
use json::Writer;
use sct_message::PaymentReturn;
use std::alloc::{AllocError, Global};

/// The keys of a pacs.004, in their order.
macro_rules! payment_return_table {
    ($walk:ident! { $($context:tt)* }) => {
        $walk! { [$($context)*] PaymentReturn {
            head: part head,
            return_id: required RtrId,
            cancellation_id: required OrgnlCxlId,
            original: part original,
            original_amount: required OrgnlIntrBkSttlmAmt,
            returned_amount: required RtrdIntrBkSttlmAmt,
            currency: required Ccy,
            settlement_date: required IntrBkSttlmDt,
            reason: required Rsn,
            debtor_agent: required DbtrAgt,
        } }
    };
}

#[tactic(auto, unfolding(crate::specs::Reading::payment_return_in))]
pub(crate) fn read<O: Object>(alloc: Global, object: &O) -> Result<PaymentReturn, JsonFault>
    ensures { GivesWithoutMemory result (payment_return_in (O.value object.now)) }
{
    payment_return_table!(read_table! { alloc, object })
}

/// Writes the members, in the order of the bytes of their keys.
pub(crate) fn put_all(payment_return: &PaymentReturn, out: &mut Writer) -> Result<(), AllocError>
    ensures { OnOk result
        (Writes (with_line (payment_return_line payment_return.now)) out.old out.new) }
{
    put(Key::Ccy, &payment_return.currency, out)?;
    put(Key::CreDtTm, &payment_return.head.creation_time, out)?;
    put(Key::DbtrAgt, &payment_return.debtor_agent, out)?;
    put_optional(Key::InstdAgt, &payment_return.head.instructed_agent, out)?;
    put(Key::InstgAgt, &payment_return.head.instructing_agent, out)?;
    put(Key::IntrBkSttlmDt, &payment_return.settlement_date, out)?;
    put(Key::MsgId, &payment_return.head.message_id, out)?;
    put(Key::MsgNmId, &payment_return.head.message_name, out)?;
    put(Key::OrgnlCxlId, &payment_return.cancellation_id, out)?;
    put_optional(
        Key::OrgnlEndToEndId,
        &payment_return.original.end_to_end_id,
        out,
    )?;
    put(
        Key::OrgnlIntrBkSttlmAmt,
        &payment_return.original_amount,
        out,
    )?;
    put(Key::OrgnlMsgId, &payment_return.original.message_id, out)?;
    put(
        Key::OrgnlMsgNmId,
        &payment_return.original.message_name,
        out,
    )?;
    put(Key::OrgnlTxId, &payment_return.original.transaction_id, out)?;
    put(Key::Rsn, &payment_return.reason, out)?;
    put(Key::RtrId, &payment_return.return_id, out)?;
    put(
        Key::RtrdIntrBkSttlmAmt,
        &payment_return.returned_amount,
        out,
    )?;
    Ok(())
}

/// A law: the written form of each element is read as the element.
pub(crate) fn elements_read_back(payment_return: &PaymentReturn)
    ensures { PaymentReturnReadsBack payment_return.now }
{
    payment_return_table!(read_back_table! { payment_return })
}
