//! pacs.002: a confirmation or a rejection.
ghost use Rattle.std.specs.Prelude.{◌≡◌, OnOk};
ghost use Rattle.sct_json.specs.Reading.{GivesWithoutMemory, status_report_in};
ghost use Rattle.sct_json.specs.Line.{with_line, status_report_line, Writes};
ghost use Rattle.sct_json.specs.Writing.{StatusReportReadsBack};

use crate::faults::JsonFault;
use crate::keys::Key;
use crate::members::{may_read_back, optional, put, put_optional, reads_back, required};
use crate::object::Object;
use crate::tables::{read_back_member, read_back_table, read_member, read_table};
use crate::{head, original};
use json::Writer;
use sct_message::StatusReport;
use std::alloc::{AllocError, Global};

/// The keys of a pacs.002, in their order.
macro_rules! status_report_table {
    ($walk:ident! { $($context:tt)* }) => {
        $walk! { [$($context)*] StatusReport {
            head: part head,
            original: part original,
            status: required TxSts,
            reason: optional Rsn,
            debtor_agent: required DbtrAgt,
        } }
    };
}

#[tactic(auto, unfolding(crate::specs::Reading::status_report_in))]
pub(crate) fn read<O: Object>(alloc: Global, object: &O) -> Result<StatusReport, JsonFault>
    ensures { GivesWithoutMemory result (status_report_in (O.value object.now)) }
{
    status_report_table!(read_table! { alloc, object })
}

/// Writes the members, in the order of the bytes of their keys.
pub(crate) fn put_all(status_report: &StatusReport, out: &mut Writer) -> Result<(), AllocError>
    ensures { OnOk result (Writes (with_line (status_report_line status_report.now)) out.old out.new) }
{
    put(Key::CreDtTm, &status_report.head.creation_time, out)?;
    put(Key::DbtrAgt, &status_report.debtor_agent, out)?;
    put_optional(Key::InstdAgt, &status_report.head.instructed_agent, out)?;
    put(Key::InstgAgt, &status_report.head.instructing_agent, out)?;
    put(Key::MsgId, &status_report.head.message_id, out)?;
    put(Key::MsgNmId, &status_report.head.message_name, out)?;
    put_optional(
        Key::OrgnlEndToEndId,
        &status_report.original.end_to_end_id,
        out,
    )?;
    put(Key::OrgnlMsgId, &status_report.original.message_id, out)?;
    put(Key::OrgnlMsgNmId, &status_report.original.message_name, out)?;
    put(Key::OrgnlTxId, &status_report.original.transaction_id, out)?;
    put_optional(Key::Rsn, &status_report.reason, out)?;
    put(Key::TxSts, &status_report.status, out)?;
    Ok(())
}

/// A law: the written form of each element is read as the element.
pub(crate) fn elements_read_back(status_report: &StatusReport)
    ensures { StatusReportReadsBack status_report.now }
{
    status_report_table!(read_back_table! { status_report })
}
