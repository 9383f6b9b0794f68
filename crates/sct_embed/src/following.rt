//! Snapshots of a site, and a site that follows them.

ghost use Rattle.std.specs.Prelude.{◌≡◌, ◌++◌, [], None, IfErr, IfOk, OnErr, OnOk};
ghost use mathlib.Core.List.{IsPrefix};
ghost use Rattle.sct_delta.specs.Entries.{IsArrivals};
ghost use Rattle.sct_snapshot.specs.Moments.{IsEarlier};
ghost use Rattle.sct_embed.specs.Following.{ArePartlyPut};

use crate::embedded_site::EmbeddedSite;
use sct_delta::Entry;
use sct_site::SiteCore;
use sct_snapshot::Snapshot;
use std::alloc::{AllocError, Global};

// Puts in entries that come next. If out of memory, the first of them are in.
#[tactic(auto, using(crate::proofs::FollowLemmas::put_first, crate::proofs::FollowLemmas::put_all))]
fn put_all(core: &mut SiteCore, entries: &[Entry]) -> Result<(), AllocError>
    requires { IsArrivals (core.old.arrivals ++ entries.now) }
    ensures put { OnOk result (core.new ≡ record { number = core.old.number; group = core.old.group; arrivals = core.old.arrivals ++ entries.now }) }
    ensures partly { OnErr result (ArePartlyPut core.old entries.now core.new) }
{
    let mut rest = entries;
    while let Some((entry, after)) = rest.split_first() {
        let Ok(message) = entry.message.clone() else {
            return Err(AllocError);
        };
        let Ok(()) = core.push(entry.origin, message) else {
            return Err(AllocError);
        };
        rest = after;
    }
    Ok(())
}

impl EmbeddedSite {
    /// What the site holds now. The site goes on, and the snapshot stays as it is. The cost is one handle for each 4,096 entries and for
    /// each of at most 4,095 more. The first one after a restore is O(entries), if nothing was taken since. The error is that it is
    /// out of memory.
    pub fn snapshot(&mut self) -> Result<Snapshot, AllocError>
        ensures snapshot { IfOk result (λ snapshot. snapshot ≡ self.old.core) }
        ensures same { self.new ≡ self.old }
    {
        self.seal();
        Snapshot::of(&self.showing.blocks, &self.core)
    }

    /// A site that holds what a snapshot has. Its answer is empty. O(entries). The error is that it is out of memory.
    pub fn of_snapshot(alloc: Global, snapshot: &Snapshot) -> Result<EmbeddedSite, AllocError>
        ensures { IfOk result (λ site. site ≡ record { core = snapshot.now; answer = []; watched = None }) }
    {
        let opened = EmbeddedSite::open(alloc, snapshot.number(), snapshot.group());
        let Ok(mut site) = opened else {
            return Err(AllocError);
        };
        site.follow(snapshot)?;
        Ok(site)
    }

    /// Takes in what a later snapshot of the same site has and this site lacks. Its answer stays. O(entries that are new).
    /// The error is that it is out of memory. Then some of them are in, and the call can be made again.
    pub fn follow(&mut self, snapshot: &Snapshot) -> Result<(), AllocError>
        requires { IsEarlier self.old.core snapshot.now }
        ensures core { OnOk result (self.new.core ≡ snapshot.now) }
        ensures earlier { IsEarlier self.new.core snapshot.now }
        ensures answer { self.new.answer ≡ self.old.answer }
        ensures watched { self.new.watched ≡ self.old.watched }
    {
        let entries = snapshot.entries_after(self.alloc, self.count())?;
        put_all(&mut self.core, &entries)?;
        self.seal();
        Ok(())
    }
}
