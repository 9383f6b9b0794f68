//! The texts that are printed of a desk's answers.

use anyhow::Result;
use sct_delta::{Delta, DeltaFault};
use sct_desk::{DeskFault, Receipt};
use sct_site::{Accepted, Took};
use std::alloc::Global;

/// The numbers of a receipt: the first position that it published, how many arrivals it published, and
/// how many of these came by earlier calls.
pub fn receipt_text(alloc: Global, receipt: &Receipt) -> Result<String> {
    Ok(format!(in alloc;
        "{} {} {}\n",
        receipt.from(),
        receipt.count(),
        receipt.carried()
    )?)
}

/// Whether a message was taken, and the numbers of the receipt.
pub fn taken_text(alloc: Global, took: &Took, receipt: &Receipt) -> Result<String> {
    let mut text = match took {
        Took::Taken { n } => format!(in alloc; "taken {n} ")?,
        Took::Repeat => format!(in alloc; "repeat ")?,
    };
    text.push_str(&receipt_text(alloc, receipt)?)?;
    Ok(text)
}

/// How many messages of a delta were fresh, or the number of the fault that refused it, and the numbers of the receipt.
pub fn accepted_text(
    alloc: Global,
    answer: &Result<Accepted, DeltaFault>,
    receipt: &Receipt,
) -> Result<String> {
    let mut text = match answer {
        Ok(accepted) => format!(in alloc; "accepted {} ", accepted.fresh)?,
        Err(refusal) => format!(in alloc; "refused {} ", refusal.number())?,
    };
    text.push_str(&receipt_text(alloc, receipt)?)?;
    Ok(text)
}

/// The origin and the number of each entry of a delta, and the numbers of the receipt.
pub fn cut_text(alloc: Global, delta: &Delta, receipt: &Receipt) -> Result<String> {
    let mut text = String::from_str(alloc, "cut ")?;
    for entry in delta.entries() {
        text.push_str(&format!(in alloc; "{}.{} ", entry.origin, entry.n)?)?;
    }
    text.push_str(&receipt_text(alloc, receipt)?)?;
    Ok(text)
}

/// The number of a fault, and its position.
pub fn fault_text(alloc: Global, fault: &DeskFault) -> Result<String> {
    let number = fault.number();
    match fault {
        DeskFault::Unpublished { from: position }
        | DeskFault::Pending { from: position }
        | DeskFault::Untold { position } => Ok(format!(in alloc; "{number} {position}\n")?),
        _ => Ok(format!(in alloc; "{number}\n")?),
    }
}
