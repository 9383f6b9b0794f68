//! The texts that sites exchange: a file is read as a delta, and a site writes its vector and what another site lacks.

ghost use Rattle.std.specs.Prelude.{◌≡◌, Ok, IfOk, IfErr, string_bytes};
ghost use Rattle.sct_delta.specs.DeltaText.{delta_in};
ghost use Rattle.sct_delta.specs.Vectors.{count_in};
ghost use Rattle.sct_delta.specs.declared.fault.DeltaFault.TheVariants as fault;
ghost use Rattle.sct_site.specs.Cores.{entries_above};
ghost use Rattle.sct_exchange.specs.Sites.{cut_text, held_text};

use sct_delta::{Delta, DeltaFault, Vector, read_delta, write_delta, write_vector};
use sct_site::SiteCore;
use std::alloc::{AllocError, Global};

/// What a file is read as: its delta, or the number, from 1, of its first wrong line.
pub type DeltaFile = Result<Delta, u64>;

/// Reads a text as its delta, or finds its first wrong line. The text is not kept. O(bytes of the text).
/// Error: `Memory` (40).
pub fn read_file(alloc: Global, text: &[u8]) -> Result<DeltaFile, DeltaFault>
    ensures file { IfOk result (λ file. file ≡ delta_in text.now) }
    ensures err { IfErr result (λ refusal. refusal ≡ fault.Memory) }
{
    match read_delta(alloc, text) {
        Ok(delta) => Ok(Ok(delta)),
        Err(DeltaFault::BadDelta(line)) => Ok(Err(line)),
        Err(_) => Err(DeltaFault::Memory),
    }
}

/// The text of the site's version vector, without a line feed. The error is that it is out of memory.
pub fn write_held(alloc: Global, core: &SiteCore) -> Result<String, AllocError>
    ensures { IfOk result (λ text. string_bytes text ≡ held_text core.now.arrivals) }
{
    let text = write_vector(alloc, core.vector())?;
    Ok(text)
}

/// The delta text, of form 2, of the entries that the site holds above a version vector. It is read back as these entries.
/// Error: `Memory` (40). O(bytes of the text), plus one look at each origin.
pub fn write_cut(alloc: Global, core: &SiteCore, have: &Vector) -> Result<Vec<u8>, DeltaFault>
    ensures text { IfOk result (λ text. text.items ≡ cut_text (count_in have.now) core.now.arrivals) }
    ensures read_back { IfOk result (λ text. delta_in text.items
        ≡ Ok (entries_above (count_in have.now) core.now.arrivals)) }
    ensures err { IfErr result (λ refusal. refusal ≡ fault.Memory) }
{
    let delta = core.cut(have)?;
    let text = write_delta(alloc, &delta)?;
    Ok(text)
}
