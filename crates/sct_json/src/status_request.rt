//! pacs.028: a question after the status of a transfer or of a recall.
ghost use Rattle.std.specs.Prelude.{◌≡◌, OnOk};
ghost use Rattle.sct_json.specs.Reading.{GivesWithoutMemory, status_request_in};
ghost use Rattle.sct_json.specs.Line.{with_line, status_request_line, Writes};
ghost use Rattle.sct_json.specs.Writing.{StatusRequestReadsBack};

use crate::faults::JsonFault;
use crate::keys::Key;
use crate::members::{may_read_back, optional, put, put_optional, reads_back, required};
use crate::object::Object;
use crate::tables::{read_back_member, read_back_table, read_member, read_table};
use crate::{head, original};
use json::Writer;
use sct_message::StatusRequest;
use std::alloc::{AllocError, Global};

/// The keys of a pacs.028, in their order.
macro_rules! status_request_table {
    ($walk:ident! { $($context:tt)* }) => {
        $walk! { [$($context)*] StatusRequest {
            head: part head,
            original: part original,
            cancellation_id: optional OrgnlCxlId,
            debtor_agent: required DbtrAgt,
        } }
    };
}

#[tactic(auto, unfolding(crate::specs::Reading::status_request_in))]
pub(crate) fn read<O: Object>(alloc: Global, object: &O) -> Result<StatusRequest, JsonFault>
    ensures { GivesWithoutMemory result (status_request_in (O.value object.now)) }
{
    status_request_table!(read_table! { alloc, object })
}

/// Writes the members, in the order of the bytes of their keys.
pub(crate) fn put_all(status_request: &StatusRequest, out: &mut Writer) -> Result<(), AllocError>
    ensures { OnOk result
        (Writes (with_line (status_request_line status_request.now)) out.old out.new) }
{
    put(Key::CreDtTm, &status_request.head.creation_time, out)?;
    put(Key::DbtrAgt, &status_request.debtor_agent, out)?;
    put_optional(Key::InstdAgt, &status_request.head.instructed_agent, out)?;
    put(Key::InstgAgt, &status_request.head.instructing_agent, out)?;
    put(Key::MsgId, &status_request.head.message_id, out)?;
    put(Key::MsgNmId, &status_request.head.message_name, out)?;
    put_optional(Key::OrgnlCxlId, &status_request.cancellation_id, out)?;
    put_optional(
        Key::OrgnlEndToEndId,
        &status_request.original.end_to_end_id,
        out,
    )?;
    put(Key::OrgnlMsgId, &status_request.original.message_id, out)?;
    put(
        Key::OrgnlMsgNmId,
        &status_request.original.message_name,
        out,
    )?;
    put(Key::OrgnlTxId, &status_request.original.transaction_id, out)?;
    Ok(())
}

/// A law: the written form of each element is read as the element.
pub(crate) fn elements_read_back(status_request: &StatusRequest)
    ensures { StatusRequestReadsBack status_request.now }
{
    status_request_table!(read_back_table! { status_request })
}
