//! The list of transactions of a camt.056.
ghost use Rattle.std.specs.Prelude.{◌≡◌, ◌≤◌, length, map, option_map, OnOk};
ghost use Rattle.std.specs.List.{AllByRecursion};
ghost use Rattle.serde_json.specs.Data.{Data, array};
ghost use Rattle.serde_json.specs.View.{view};
ghost use Rattle.sct_json.specs.Reading.{GivesItems, items_of_list, first_no_object, elements_in, list_in};
ghost use Rattle.sct_json.specs.Objects.{objects_of};
ghost use Rattle.sct_json.specs.Line.{with_objects, with_array, Writes};
ghost use Rattle.sct_json.specs.Writing.{TransactionReadsBack};

use crate::faults::JsonFault;
use crate::keys::Key;
use crate::plain::PlainTransaction;
use crate::transaction;
use crate::transaction::ListElement;
use json::Writer;
use sct_message::{RecallTx, is_right_count};
use serde_json::Value;
use std::alloc::{AllocError, Global};

/// The place, from 1, of the first element that is no object.
fn first_no_object(elements: &[Value]) -> Option<usize>
    requires { length elements.now ≤ 100 }
    ensures { result ≡ first_no_object 1 (map view elements.now) }
{
    let mut place = 1;
    let mut rest = elements;
    while let Some((element, others)) = rest.split_first() {
        if !element.is_object() {
            return Some(place);
        }
        place += 1;
        rest = others;
    }
    None
}

/// The transactions that the elements are, in the order of the list.
fn read_elements<E: ListElement>(alloc: Global, elements: &[E]) -> Result<Vec<RecallTx>, JsonFault>
    requires { length elements.now ≤ 100 }
    ensures { GivesItems result (elements_in 1 (map E.element elements.now)) }
{
    let mut txs = Vec::new(alloc);
    let mut place = 1;
    let mut rest = elements;
    while let Some((element, others)) = rest.split_first() {
        match transaction::read_at(alloc, place, element) {
            Ok(tx) => {
                if txs.push(tx).is_err() {
                    return Err(JsonFault::Memory);
                }
            }
            Err(fault) => return Err(fault),
        }
        place += 1;
        rest = others;
    }
    Ok(txs)
}

/// The transactions of a list of 1 to 100 objects.
#[tactic(auto, unfolding(crate::specs::Reading::list_in))]
pub(crate) fn read_list(alloc: Global, list: Option<&[Value]>) -> Result<Vec<RecallTx>, JsonFault>
    ensures { (whole : Data) → option_map (λ elements. map view elements.now) list.entry ≡ items_of_list whole
        → GivesItems result (list_in whole) }
{
    let Some(elements) = list else {
        return Err(JsonFault::BadTransactions(0));
    };
    if !is_right_count(elements.len()) {
        return Err(JsonFault::BadTransactions(0));
    }
    if let Some(place) = first_no_object(elements) {
        return Err(JsonFault::BadTransactions(place));
    }
    read_elements(alloc, elements)
}

/// The transactions of a list of 1 to 100 objects of texts.
#[tactic(auto, unfolding(crate::specs::Reading::list_in))]
pub(crate) fn read_plain_list(
    alloc: Global,
    list: &[PlainTransaction<'_>],
) -> Result<Vec<RecallTx>, JsonFault>
    ensures { GivesItems result (list_in (array (objects_of list.now))) }
{
    if !is_right_count(list.len()) {
        return Err(JsonFault::BadTransactions(0));
    }
    read_elements(alloc, list)
}

/// Writes an object for each transaction.
fn put_objects(txs: &[RecallTx], out: &mut Writer) -> Result<(), AllocError>
    ensures { OnOk result (Writes (with_objects txs.now) out.old out.new) }
{
    let mut rest = txs;
    while let Some((tx, others)) = rest.split_first() {
        transaction::put_object(tx, out)?;
        rest = others;
    }
    Ok(())
}

/// Writes the list at its key.
pub(crate) fn put_list(txs: &[RecallTx], out: &mut Writer) -> Result<(), AllocError>
    ensures { OnOk result (Writes (with_array txs.now) out.old out.new) }
{
    out.key(Key::TxInf.text())?;
    out.begin_array()?;
    put_objects(txs, out)?;
    out.end_array()
}

/// A law: the written form of each element of each transaction is read as the element.
pub(crate) fn elements_read_back(txs: &[RecallTx])
    ensures { AllByRecursion TransactionReadsBack txs.now }
{
    if let Some((tx, others)) = txs.split_first() {
        transaction::elements_read_back(tx);
        elements_read_back(others);
    }
}
