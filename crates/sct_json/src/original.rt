//! The transfer that a later message is about.
ghost use Rattle.std.specs.Prelude.{◌≡◌};
ghost use Rattle.sct_json.specs.Reading.{GivesWithoutMemory, original_in};
ghost use Rattle.sct_json.specs.Writing.{OriginalReadsBack};

use crate::faults::JsonFault;
use crate::keys::Key;
use crate::members::{may_read_back, optional, reads_back, required};
use crate::object::Keyed;
use crate::tables::{read_back_member, read_back_table, read_member, read_table};
use sct_message::Original;
use std::alloc::Global;

/// The keys of the original message, in their order.
macro_rules! original_table {
    ($walk:ident! { $($context:tt)* }) => {
        $walk! { [$($context)*] Original {
            message_id: required OrgnlMsgId,
            message_name: required OrgnlMsgNmId,
            end_to_end_id: optional OrgnlEndToEndId,
            transaction_id: required OrgnlTxId,
        } }
    };
}

#[tactic(auto, unfolding(crate::specs::Reading::original_in))]
pub(crate) fn read<O: Keyed>(alloc: Global, object: &O) -> Result<Original, JsonFault>
    ensures { GivesWithoutMemory result (original_in (O.value object.now)) }
{
    original_table!(read_table! { alloc, object })
}

/// A law: the written form of each element is read as the element.
pub(crate) fn elements_read_back(original: &Original)
    ensures { OriginalReadsBack original.now }
{
    original_table!(read_back_table! { original })
}
