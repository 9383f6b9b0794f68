//! From a message to its written form.
ghost use Rattle.std.specs.Prelude.{◌≡◌, Ok, OnOk, IfOk, IfErr};
ghost use Rattle.sct_json.specs.Reading.{message_in};
ghost use Rattle.sct_json.specs.Form.{StandsFor};
ghost use Rattle.sct_json.specs.Line.{with_message, Writes};
ghost use Rattle.sct_json.specs.Writing.{written_object, written_text, ElementsReadBack};

use crate::faults::JsonFault;
use crate::{
    cancellation_request, credit_transfer, payment_return, resolution, status_report,
    status_request,
};
use json::Writer;
use sct_message::{Draft, Message};
use std::alloc::{AllocError, Global};

/// Room for a written text of the usual length.
const ROOM: usize = 768;

/// Writes the members of a message, in the order of the bytes of their keys.
fn put_members(draft: &Draft, out: &mut Writer) -> Result<(), AllocError>
    ensures { OnOk result (Writes (with_message draft.now) out.old out.new) }
{
    match draft {
        Draft::CreditTransfer(credit_transfer) => credit_transfer::put_all(credit_transfer, out),
        Draft::StatusReport(status_report) => status_report::put_all(status_report, out),
        Draft::StatusRequest(status_request) => status_request::put_all(status_request, out),
        Draft::CancellationRequest(cancellation_request) => cancellation_request::put_all(
            cancellation_request,
            out,
        ),
        Draft::PaymentReturn(payment_return) => payment_return::put_all(payment_return, out),
        Draft::Resolution(resolution) => resolution::put_all(resolution, out),
    }
}

/// The text of the object of a message. Most texts fit in the first allocation.
fn text_of(alloc: Global, draft: &Draft) -> Result<Vec<u8>, AllocError>
    ensures text { IfOk result (λ text. text.items ≡ written_text draft.now) }
    ensures stands { IfOk result (λ text. StandsFor text.items (written_object draft.now)) }
{
    let mut out = Writer::new(Vec::with_capacity(alloc, ROOM)?);
    out.begin_object()?;
    put_members(draft, &mut out)?;
    out.end_object()?;
    Ok(out.into_inner())
}

/// A law: the written form of each element of a message is read as the element.
pub(crate) fn elements_read_back(draft: &Draft)
    ensures { ElementsReadBack draft.now }
{
    match draft {
        Draft::CreditTransfer(credit_transfer) => credit_transfer::elements_read_back(
            credit_transfer,
        ),
        Draft::StatusReport(status_report) => status_report::elements_read_back(status_report),
        Draft::StatusRequest(status_request) => status_request::elements_read_back(status_request),
        Draft::CancellationRequest(cancellation_request) =>
            cancellation_request::elements_read_back(cancellation_request),
        Draft::PaymentReturn(payment_return) => payment_return::elements_read_back(payment_return),
        Draft::Resolution(resolution) => resolution::elements_read_back(resolution),
    }
}

/// Writes the one written form of a message: one line with no spaces, its keys in the order of their bytes, each
/// element in its written form, absent elements left out. A camt.056 of one transaction has no list; a camt.056 of more
/// has a list with an object for each, in their order. The text is read back as the message.
/// Error: `Memory` (30). O(bytes of the text).
pub fn write_message(alloc: Global, message: &Message) -> Result<Vec<u8>, JsonFault>
    ensures written { IfOk result (λ text. text.items ≡ written_text message.now) }
    ensures reads_back { IfOk result (λ text. message_in text.items ≡ Ok message.now) }
    ensures memory { IfErr result (λ fault. fault ≡ JsonFault.Memory) }
{
    let elements = message.draft();
    elements_read_back(elements);
    match text_of(alloc, elements) {
        Ok(text) => Ok(text),
        Err(_) => Err(JsonFault::Memory),
    }
}
