//! camt.029: the refusal of a recall.
ghost use Rattle.std.specs.Prelude.{◌≡◌, OnOk};
ghost use Rattle.sct_json.specs.Reading.{GivesWithoutMemory, resolution_in};
ghost use Rattle.sct_json.specs.Line.{with_line, resolution_line, Writes};
ghost use Rattle.sct_json.specs.Writing.{ResolutionReadsBack};

use crate::faults::JsonFault;
use crate::keys::Key;
use crate::members::{may_read_back, optional, put, put_optional, reads_back, required};
use crate::object::Object;
use crate::tables::{read_back_member, read_back_table, read_member, read_table};
use crate::{head, original};
use json::Writer;
use sct_message::Resolution;
use std::alloc::{AllocError, Global};

/// The keys of a camt.029, in their order.
macro_rules! resolution_table {
    ($walk:ident! { $($context:tt)* }) => {
        $walk! { [$($context)*] Resolution {
            head: part head,
            resolution_id: required CxlStsId,
            cancellation_id: required OrgnlCxlId,
            original: part original,
            confirmation: required Conf,
            reason: required Rsn,
            debtor_agent: required DbtrAgt,
        } }
    };
}

#[tactic(auto, unfolding(crate::specs::Reading::resolution_in))]
pub(crate) fn read<O: Object>(alloc: Global, object: &O) -> Result<Resolution, JsonFault>
    ensures { GivesWithoutMemory result (resolution_in (O.value object.now)) }
{
    resolution_table!(read_table! { alloc, object })
}

/// Writes the members, in the order of the bytes of their keys.
pub(crate) fn put_all(resolution: &Resolution, out: &mut Writer) -> Result<(), AllocError>
    ensures { OnOk result (Writes (with_line (resolution_line resolution.now)) out.old out.new) }
{
    put(Key::Conf, &resolution.confirmation, out)?;
    put(Key::CreDtTm, &resolution.head.creation_time, out)?;
    put(Key::CxlStsId, &resolution.resolution_id, out)?;
    put(Key::DbtrAgt, &resolution.debtor_agent, out)?;
    put_optional(Key::InstdAgt, &resolution.head.instructed_agent, out)?;
    put(Key::InstgAgt, &resolution.head.instructing_agent, out)?;
    put(Key::MsgId, &resolution.head.message_id, out)?;
    put(Key::MsgNmId, &resolution.head.message_name, out)?;
    put(Key::OrgnlCxlId, &resolution.cancellation_id, out)?;
    put_optional(
        Key::OrgnlEndToEndId,
        &resolution.original.end_to_end_id,
        out,
    )?;
    put(Key::OrgnlMsgId, &resolution.original.message_id, out)?;
    put(Key::OrgnlMsgNmId, &resolution.original.message_name, out)?;
    put(Key::OrgnlTxId, &resolution.original.transaction_id, out)?;
    put(Key::Rsn, &resolution.reason, out)?;
    Ok(())
}

/// A law: the written form of each element is read as the element.
pub(crate) fn elements_read_back(resolution: &Resolution)
    ensures { ResolutionReadsBack resolution.now }
{
    resolution_table!(read_back_table! { resolution })
}
