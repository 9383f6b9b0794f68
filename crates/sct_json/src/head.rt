//! What every message begins with.
ghost use Rattle.std.specs.Prelude.{◌≡◌, OnOk};
ghost use Rattle.sct_json.specs.Reading.{GivesWithoutMemory, head_in};
ghost use Rattle.sct_json.specs.Line.{with_line, head_line, Writes};
ghost use Rattle.sct_json.specs.Writing.{HeadReadsBack};

use crate::faults::JsonFault;
use crate::keys::Key;
use crate::members::{may_read_back, optional, put, put_optional, reads_back, required};
use crate::object::Object;
use crate::tables::{read_back_member, read_back_table, read_member, read_table};
use json::Writer;
use sct_message::Head;
use std::alloc::{AllocError, Global};

/// The keys of the head, in their order.
macro_rules! head_table {
    ($walk:ident! { $($context:tt)* }) => {
        $walk! { [$($context)*] Head {
            message_name: required MsgNmId,
            message_id: required MsgId,
            creation_time: required CreDtTm,
            instructing_agent: required InstgAgt,
            instructed_agent: optional InstdAgt,
        } }
    };
}

#[tactic(auto, unfolding(crate::specs::Reading::head_in))]
pub(crate) fn read<O: Object>(alloc: Global, object: &O) -> Result<Head, JsonFault>
    ensures { GivesWithoutMemory result (head_in (O.value object.now)) }
{
    head_table!(read_table! { alloc, object })
}

/// Writes the members, in the order of the bytes of their keys.
pub(crate) fn put_all(head: &Head, out: &mut Writer) -> Result<(), AllocError>
    ensures { OnOk result (Writes (with_line (head_line head.now)) out.old out.new) }
{
    put(Key::CreDtTm, &head.creation_time, out)?;
    put_optional(Key::InstdAgt, &head.instructed_agent, out)?;
    put(Key::InstgAgt, &head.instructing_agent, out)?;
    put(Key::MsgId, &head.message_id, out)?;
    put(Key::MsgNmId, &head.message_name, out)?;
    Ok(())
}

/// A law: the written form of each element is read as the element.
pub(crate) fn elements_read_back(head: &Head)
    ensures { HeadReadsBack head.now }
{
    head_table!(read_back_table! { head })
}
