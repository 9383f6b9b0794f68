//! Files offered to a site in rounds.

ghost use Rattle.std.specs.Prelude.{◌≡◌, IfOk, IfErr, if◌then◌else◌};
ghost use Rattle.sct_delta.specs.declared.fault.DeltaFault.TheVariants as fault;
ghost use Rattle.sct_exchange.specs.Rounds.{accepts_some, core_with, exchanged, is_accepted, numbered_files, refusal_of, refused_by, round};

use crate::refused::RefusedFile;
use crate::texts::DeltaFile;
use sct_delta::DeltaFault;
use sct_site::SiteCore;
use std::alloc::Global;

// The files with their numbers. The journal is file 1.
fn numbered(alloc: Global, files: Vec<DeltaFile>) -> Result<Vec<(u64, DeltaFile)>, DeltaFault>
    ensures numbered { IfOk result (λ numbered. numbered.items ≡ numbered_files files.items) }
    ensures err { IfErr result (λ refusal. refusal ≡ fault.Memory) }
{
    let mut numbered = Vec::new(alloc);
    let mut number = 2;
    for file in files {
        numbered.push((number, file))?;
        number += 1;
    }
    Ok(numbered)
}

// Why the site refuses a file, or none if it does not.
fn refusal(core: &SiteCore, file: &DeltaFile) -> Option<DeltaFault>
    ensures { result ≡ refusal_of core.now file.now }
{
    match file {
        Ok(delta) => core.refusal(delta),
        Err(line) => Some(DeltaFault::BadDelta(*line)),
    }
}

// Offers a file. Whether the site accepts it.
fn offer(core: &mut SiteCore, file: &DeltaFile) -> Result<bool, DeltaFault>
    ensures answer { IfOk result (λ accepted. accepted ≡ is_accepted core.old file.now) }
    ensures ok { IfOk result (λ accepted. core.new ≡ (if accepted then core_with core.old file.now else core.old)) }
    ensures err { IfErr result (λ refusal. refusal ≡ fault.Memory) }
{
    let Ok(delta) = file else {
        return Ok(false);
    };
    match core.accept(delta) {
        Ok(_) => Ok(true),
        Err(DeltaFault::Memory) => Err(DeltaFault::Memory),
        Err(_) => Ok(false),
    }
}

// One round: offers each file in its turn. An accepted one is dropped. Returns those that are left, in their order.
fn round(
    alloc: Global,
    core: &mut SiteCore,
    files: Vec<(u64, DeltaFile)>,
) -> Result<Vec<(u64, DeltaFile)>, DeltaFault>
    ensures core { IfOk result (λ _. core.new ≡ (round core.old files.items).core) }
    ensures left { IfOk result (λ left. left.items ≡ (round core.old files.items).left) }
    ensures err { IfErr result (λ refusal. refusal ≡ fault.Memory) }
{
    let mut left = Vec::new(alloc);
    for file in files {
        if !offer(core, &file.1)? {
            left.push(file)?;
        }
    }
    Ok(left)
}

// Offers files in rounds, until one leaves them all. Returns those that are left, in their order. An accepted file is dropped
// at once. On an error the site has accepted some of the files.
pub(crate) fn offer_in_rounds(
    alloc: Global,
    core: &mut SiteCore,
    files: Vec<DeltaFile>,
) -> Result<Vec<(u64, DeltaFile)>, DeltaFault>
    ensures core { IfOk result (λ _. core.new ≡ (exchanged core.old files.items).core) }
    ensures left { IfOk result (λ left. left.items ≡ (exchanged core.old files.items).left) }
    ensures err { IfErr result (λ refusal. refusal ≡ fault.Memory) }
{
    let mut left = numbered(alloc, files)?;
    let mut before = left.len() + 1;
    'rounds: while left.len() < before {
        before = left.len();
        left = round(alloc, core, left)?;
    }
    Ok(left)
}

// The files that the site refuses, each with the reason.
pub(crate) fn refusals(
    alloc: Global,
    core: &SiteCore,
    files: &[(u64, DeltaFile)],
) -> Result<Vec<RefusedFile>, DeltaFault>
    ensures refused { IfOk result (λ refused. refused.items ≡ refused_by core.now files.now) }
    ensures err { IfErr result (λ refusal. refusal ≡ fault.Memory) }
{
    let mut refused = Vec::new(alloc);
    for file in files {
        if let Some(fault) = refusal(core, &file.1) {
            refused.push(RefusedFile {
                number: file.0,
                fault,
            })?;
        }
    }
    Ok(refused)
}
