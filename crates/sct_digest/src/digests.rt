//! The digests of the entries that a site holds.

ghost use Rattle.std.specs.Prelude.{◌≡◌, ◌≤◌, ◌++◌, List, length, is_none, nat_lt, string_bytes, IfOk, IfSome, OnOk};
ghost use Rattle.sct_delta.specs.Entries.{Placed, held_from};
ghost use Rattle.sct_digest.specs.Digests.{digest_text, digests_text, line_if_held};
ghost use Rattle.sct_digest.specs.Keeping.{AreKept};

use crate::chain::Chain;
use sct_delta::MOST_SITES;
use sct_site::SiteCore;
use std::alloc::{AllocError, Global};

/// The digests of a site's entries, as they were worked out up to now. What is kept of an origin is the digest of all entries
/// that were looked at, and that of each 1,024 of them.
#[derive(Drop)]
pub struct Digests {
    pub(crate) chains: Vec<Chain>,
}

impl Digests {
    /// Nothing is kept.
    pub fn new(alloc: Global) -> Digests
        ensures { (arrivals : List Placed) → AreKept result arrivals }
    {
        Digests {
            chains: Vec::new(alloc),
        }
    }

    // Has a chain for each origin up to this one.
    fn grow(&mut self, alloc: Global, origin: u16) -> Result<(), AllocError>
        ensures kept { (arrivals : List Placed) → AreKept self.old arrivals → AreKept self.new arrivals }
        ensures chain { OnOk result (origin ≤ length self.new.chains.items) }
    {
        while self.chains.len() < origin as usize {
            self.chains.push(Chain::new(alloc))?;
        }
        Ok(())
    }

    // Looks at the entries of an origin that it did not look at yet.
    fn follow(&mut self, alloc: Global, core: &SiteCore, origin: u16) -> Result<(), AllocError>
        requires kept { AreKept self.old core.now.arrivals }
        requires origin { 1 ≤ origin }
        ensures kept { AreKept self.new core.now.arrivals }
        ensures chain { OnOk result (origin ≤ length self.new.chains.items) }
    {
        self.grow(alloc, origin)?;
        self.chains[origin as usize - 1].follow(alloc, core.log(origin))
    }

    /// The 64 hexadecimal digits of the digest of the first `count` entries of an origin, or none if the site holds fewer.
    /// O(entries of the origin that it did not look at yet), or O(1,024). The error is that it is out of memory.
    pub fn text_at(
        &mut self,
        alloc: Global,
        core: &SiteCore,
        origin: u16,
        count: u64,
    ) -> Result<Option<String>, AllocError>
        requires kept { AreKept self.old core.now.arrivals }
        requires origin { 1 ≤ origin }
        ensures kept { AreKept self.new core.now.arrivals }
        ensures text { IfOk result (λ found. IfSome found (λ text. string_bytes text ≡ digest_text origin count core.now.arrivals)) }
        ensures held { IfOk result (λ found. is_none found ≡ nat_lt (held_from origin core.now.arrivals) count) }
    {
        let log = core.log(origin);
        if count > log.len() as u64 {
            return Ok(None);
        }
        self.follow(alloc, core, origin)?;
        let digest = self.chains[origin as usize - 1].digest(alloc, log, count as usize)?;
        Ok(Some(hex::encode(alloc, digest)?))
    }

    // Appends the line of an origin, if there are entries of it.
    fn push_line(
        &mut self,
        alloc: Global,
        core: &SiteCore,
        origin: u16,
        text: &mut String,
    ) -> Result<(), AllocError>
        requires kept { AreKept self.old core.now.arrivals }
        requires origin { 1 ≤ origin }
        ensures kept { AreKept self.new core.now.arrivals }
        ensures text { OnOk result (string_bytes text.new ≡ string_bytes text.old ++ line_if_held origin core.now.arrivals) }
    {
        let count = core.log(origin).len() as u64;
        if count == 0 {
            return Ok(());
        }
        if let Some(digest) = self.text_at(alloc, core, origin, count)? {
            text.push_str(&format!(in alloc; "{origin}:{count}:{digest}\n")?)?;
        }
        Ok(())
    }

    /// A line for each origin of which the site holds entries, ascending: `<origin>:<count>:<digest>` of all its entries.
    /// O(entries that it did not look at yet), and one look at each of 1,024 origins. The error is that it is out of memory.
    pub fn text(&mut self, alloc: Global, core: &SiteCore) -> Result<String, AllocError>
        requires { AreKept self.old core.now.arrivals }
        ensures kept { AreKept self.new core.now.arrivals }
        ensures text { IfOk result (λ text. string_bytes text ≡ digests_text core.now.arrivals) }
    {
        let mut text = String::new(alloc);
        for before in 0..MOST_SITES {
            self.push_line(alloc, core, before + 1, &mut text)?;
        }
        Ok(text)
    }
}
