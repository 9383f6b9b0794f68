//! The arguments of a question: a transfer by the bytes of its texts, the size of a text, and a version vector by counts, that of
//! origin 1 first. A vector is also written so.

ghost use Rattle.std.specs.Prelude.{◌≡◌, ◌<◌, ◌≤◌, ◌+◌, ℕ, Ok, Err, length, slice_index, IfErr, IfOk, OnOk};
ghost use Rattle.sct_delta.specs.Vectors.{count_in};
ghost use Rattle.sct_embed.specs.Calls.{is_text_size};
ghost use Rattle.sct_embed.specs.Counts.{count_of_origin, pairs_from, RefusesCounts};
ghost use Rattle.sct_embed.specs.Questions.{bank_in, identification_in, transfer_from};

use crate::faults::EmbedFault;
use sct_delta::{DeltaFault, MOST_SITES, Vector};
use sct_message::TransferKey;
use sct_reconcile::{bank_of, identification_of};
use std::alloc::{AllocError, Global};

/// The transfer that a bank and an identification name. Error: `BadArgument` (73), 1 for the bank and 2 for the identification.
pub(crate) fn transfer_of(bank: &[u8], tx: &[u8]) -> Result<TransferKey, EmbedFault>
    ensures { result ≡ transfer_from (bank_in bank.now) (identification_in tx.now) }
{
    let Some(debtor_agent) = bank_of(bank) else {
        return Err(EmbedFault::BadArgument(1));
    };
    let Some(tx) = identification_of(tx) else {
        return Err(EmbedFault::BadArgument(2));
    };
    Ok(TransferKey { debtor_agent, tx })
}

// The greatest size that a question may give a text, in bytes: such a text is no longer than a request of `serve` may be.
const MOST_TEXT: u64 = 67108863;

/// Whether a question may give a text this size, in bytes: 1 to 67108863.
pub(crate) fn is_text_size(most: u64) -> bool
    ensures { result ≡ is_text_size most }
{
    1 <= most && most <= MOST_TEXT
}

// Each count with its origin.
fn pairs_of(alloc: Global, counts: &[u64]) -> Result<Vec<(u16, u64)>, AllocError>
    requires { length counts.now ≤ 1024 }
    ensures { IfOk result (λ pairs. pairs.items ≡ pairs_from 1 counts.now) }
{
    let mut pairs = Vec::new(alloc);
    for at in 0..counts.len() {
        pairs.push(((at + 1) as u16, counts[at]))?;
    }
    Ok(pairs)
}

/// The vector of counts, one for each origin from 1 on. An origin past them counts 0.
/// Errors: `BadSite` (44) if there are more than 1024 counts; `Memory` (40).
pub(crate) fn vector_of(alloc: Global, counts: &[u64]) -> Result<Vector, DeltaFault>
    ensures counts { IfOk result (λ vector. (origin : ℕ) → count_in vector origin ≡ count_of_origin counts.now origin) }
    ensures fits { OnOk result (length counts.now ≤ 1024) }
    ensures err { IfErr result (RefusesCounts counts.now) }
{
    if counts.len() > MOST_SITES as usize {
        return Err(DeltaFault::BadSite);
    }
    let pairs = pairs_of(alloc, counts)?;
    match Vector::of(alloc, &pairs) {
        Ok(vector) => Ok(vector),
        Err(_) => Err(DeltaFault::Memory),
    }
}

/// Writes the counts of a vector, that of origin 1 first.
pub(crate) fn put_counts(vector: &Vector, out: &mut [u64])
    requires { length out.old ≤ 1024 }
    ensures { (k : ℕ) → k < length out.old → slice_index out.new k ≡ count_in vector.now (k + 1) }
{
    for at in 0..out.len() {
        out[at] = vector.get((at + 1) as u16);
    }
}
