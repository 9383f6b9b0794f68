//! Sites that were filled from inputs.

ghost use Rattle.std.specs.Prelude.{◌≡◌, ◌+◌, ◌++◌, ◌∷◌, [], IfOk};

use sct_lines::Refusals;
use sct_site::SiteCore;
use std::alloc::{AllocError, Global};

/// A site that was filled from an input, with the refused lines of the input.
#[derive(Drop)]
pub struct Filled {
    pub core: SiteCore,
    pub refusals: Refusals,
}

/// The sites of the inputs in their order, with the refused lines of all inputs.
#[derive(Drop)]
pub struct Sites {
    pub cores: Vec<SiteCore>,
    pub refusals: Refusals,
}

impl Sites {
    // The sites of no inputs.
    pub(crate) fn none(alloc: Global) -> Sites
        ensures cores { result.cores.items ≡ [] }
        ensures told { result.refusals.text ≡ [] }
        ensures refused { result.refusals.count ≡ 0 }
    {
        Sites {
            cores: Vec::new(alloc),
            refusals: Refusals::none(alloc),
        }
    }

    // Adds the site of one more input.
    pub(crate) fn with(self, site: Filled) -> Result<Sites, AllocError>
        ensures cores { IfOk result (λ sites. sites.cores.items ≡ self.cores.items ++ site.core ∷ []) }
        ensures told { IfOk result (λ sites. sites.refusals.text
            ≡ self.refusals.text ++ site.refusals.text) }
        ensures refused { IfOk result (λ sites. sites.refusals.count
            ≡ self.refusals.count + site.refusals.count) }
    {
        let Sites {
            mut cores,
            mut refusals,
        } = self;
        let Filled {
            core,
            refusals: more,
        } = site;
        refusals.append(more)?;
        cores.push(core)?;
        Ok(Sites { cores, refusals })
    }
}
