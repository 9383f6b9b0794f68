//! pacs.008: a credit transfer.
ghost use Rattle.std.specs.Prelude.{◌≡◌, OnOk};
ghost use Rattle.sct_json.specs.Reading.{GivesWithMemory, credit_transfer_in};
ghost use Rattle.sct_json.specs.Line.{with_line, credit_transfer_line, Writes};
ghost use Rattle.sct_json.specs.Writing.{CreditTransferReadsBack};

use crate::faults::JsonFault;
use crate::head;
use crate::keys::Key;
use crate::members::{may_read_back, optional, put, put_optional, reads_back, required};
use crate::object::Object;
use crate::tables::{read_back_member, read_back_table, read_member, read_table};
use json::Writer;
use sct_message::CreditTransfer;
use std::alloc::{AllocError, Global};

/// The keys of a pacs.008, in their order.
macro_rules! credit_transfer_table {
    ($walk:ident! { $($context:tt)* }) => {
        $walk! { [$($context)*] CreditTransfer {
            head: part head,
            settlement_date: required IntrBkSttlmDt,
            service_level: required SvcLvl,
            local_instrument: required LclInstrm,
            instruction_id: optional InstrId,
            end_to_end_id: required EndToEndId,
            transaction_id: required TxId,
            settlement_amount: required IntrBkSttlmAmt,
            currency: required Ccy,
            charge_bearer: required ChrgBr,
            acceptance_time: optional AccptncDtTm,
            debtor: required Dbtr,
            debtor_account: required DbtrAcct,
            debtor_agent: required DbtrAgt,
            creditor_agent: required CdtrAgt,
            creditor: required Cdtr,
            creditor_account: required CdtrAcct,
            remittance: optional Ustrd,
        } }
    };
}

#[tactic(auto, unfolding(crate::specs::Reading::credit_transfer_in))]
pub(crate) fn read<O: Object>(alloc: Global, object: &O) -> Result<CreditTransfer, JsonFault>
    ensures { GivesWithMemory result (credit_transfer_in (O.value object.now)) }
{
    credit_transfer_table!(read_table! { alloc, object })
}

/// Writes the members, in the order of the bytes of their keys.
pub(crate) fn put_all(credit_transfer: &CreditTransfer, out: &mut Writer) -> Result<(), AllocError>
    ensures { OnOk result
        (Writes (with_line (credit_transfer_line credit_transfer.now)) out.old out.new) }
{
    put_optional(Key::AccptncDtTm, &credit_transfer.acceptance_time, out)?;
    put(Key::Ccy, &credit_transfer.currency, out)?;
    put(Key::Cdtr, &credit_transfer.creditor, out)?;
    put(Key::CdtrAcct, &credit_transfer.creditor_account, out)?;
    put(Key::CdtrAgt, &credit_transfer.creditor_agent, out)?;
    put(Key::ChrgBr, &credit_transfer.charge_bearer, out)?;
    put(Key::CreDtTm, &credit_transfer.head.creation_time, out)?;
    put(Key::Dbtr, &credit_transfer.debtor, out)?;
    put(Key::DbtrAcct, &credit_transfer.debtor_account, out)?;
    put(Key::DbtrAgt, &credit_transfer.debtor_agent, out)?;
    put(Key::EndToEndId, &credit_transfer.end_to_end_id, out)?;
    put_optional(Key::InstdAgt, &credit_transfer.head.instructed_agent, out)?;
    put(Key::InstgAgt, &credit_transfer.head.instructing_agent, out)?;
    put_optional(Key::InstrId, &credit_transfer.instruction_id, out)?;
    put(Key::IntrBkSttlmAmt, &credit_transfer.settlement_amount, out)?;
    put(Key::IntrBkSttlmDt, &credit_transfer.settlement_date, out)?;
    put(Key::LclInstrm, &credit_transfer.local_instrument, out)?;
    put(Key::MsgId, &credit_transfer.head.message_id, out)?;
    put(Key::MsgNmId, &credit_transfer.head.message_name, out)?;
    put(Key::SvcLvl, &credit_transfer.service_level, out)?;
    put(Key::TxId, &credit_transfer.transaction_id, out)?;
    put_optional(Key::Ustrd, &credit_transfer.remittance, out)?;
    Ok(())
}

/// A law: the written form of each element is read as the element.
pub(crate) fn elements_read_back(credit_transfer: &CreditTransfer)
    ensures { CreditTransferReadsBack credit_transfer.now }
{
    credit_transfer_table!(read_back_table! { credit_transfer })
}
